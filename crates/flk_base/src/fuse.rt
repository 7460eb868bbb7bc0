// The fuse: after how many steps the power is lost.
ghost use Rattle.std.specs.Prelude.{◌≡◌, ◌↔◌, true, Some, IsErr, OnErr, OnOk};
ghost use Rattle.flk_base.specs.Stop.{spent};

/// The power was lost before the step.
#[derive(Clone, Copy, Debug, PartialEq, Eq)]
pub struct PowerLost;

/// How many steps are left before the power is lost; `None` where it is never lost.
#[derive(Clone, Copy, Debug, PartialEq, Eq)]
pub struct Fuse {
    pub left: Option<u32>,
}

impl Fuse {
    /// Takes one step from the fuse. At `Some(0)` the power is lost, and the fuse stays.
    pub fn step(&mut self) -> Result<(), PowerLost>
        ensures lost { IsErr result ↔ (self.old.left ≡ Some 0) }
        ensures kept { OnErr result (self.new ≡ self.old) }
        ensures spent { OnOk result (spent true self.old.left ≡ Some self.new.left) }
    {
        match self.left {
            None => Ok(()),
            Some(0) => Err(PowerLost),
            Some(left) => {
                self.left = Some(left - 1);
                Ok(())
            }
        }
    }
}
