// What is left when a call has ended.
ghost use Rattle.std.specs.Prelude.{◌≡◌};
ghost use Rattle.flk_run.specs.Parts.{HoldsSpans};

use flk_run::{Board, SimDisk, Spans};

/// What is left when a call has ended. It must be spent.
pub struct Finished {
    /// The status that the program ends with.
    pub status: u8,
    pub board: Board,
    pub disk: SimDisk,
    pub spans: Spans,
}

impl Finished {
    /// Gives the spans back, ends the board and the disk, and answers the status.
    pub fn exit(self) -> u8
        requires { HoldsSpans self.board.memory.marks self.spans }
        ensures { result ≡ self.status }
    {
        let Finished {
            status,
            mut board,
            disk,
            spans,
        } = self;
        spans.give_all(&mut board);
        board.scrap();
        disk.scrap();
        status
    }
}
