// What an event comes to once its expressions have their values.
ghost use Rattle.std.specs.Prelude.{◌≡◌, ◌≤◌, length, replicate, IfOk, IsOk, IsErr, IsSome, MatchResult, Ok, Err, true};
ghost use Rattle.std.specs.Option.{option_map, IfSome};
ghost use Rattle.expr_text.specs.Values.{value_of};
ghost use Rattle.script_text.specs.Seen.{request_of, HasShortName};
ghost use Rattle.slb_image.specs.Faults.{build_fault};
ghost use Rattle.slb_image.specs.Image.{pack};
ghost use Rattle.flk_run.specs.Tasks.{Extend, Bind, Show, Poke, Dma, Arm, Seed, Unseal, Draw, ReadSlot, value_task, image_or_fault, peek_or_long, session_or_nonce, quote_or_nonce, counter_or_none, is_slot, slot_or_none, overwrite_or_refusal, room, task_of, MayAllocateFor};
ghost use Rattle.flk_run.specs.Seen.{seen_task, binds, takes, IsNamed, IsShown, IsRoom, HasRoom, HasSlot};

use crate::answers::{
    LINE_ROOM, LONGEST_OUTPUTS, QUOTE_ROOM, REGISTER_ROOM, Refusal, SESSION_ROOM, SLOT_ROOM,
    UNSEAL_ROOM,
};
use crate::checks::{Asked, CheckTask, check_task};
use flk_base::{Bytes, NoMemory};
use job_store::{JOBS, LONGEST_BLOB};
use script_text::{Event, Expr, ExprError, ExprFault, LONGEST_VALUE, Vars};
use slb_image::{BuildError, build};
use std::alloc::Global;

/// How many bytes a nonce has.
pub(crate) const NONCE_LEN: usize = 20;

/// A name that a task binds to what it shows, for which there is room.
#[derive(Drop)]
pub(crate) struct Bound<'e> {
    pub(crate) name: &'e [u8],
    pub(crate) value: Bytes,
}

/// A session: its image, inputs and nonce, room for its outputs, and the name that it binds to them.
#[derive(Drop)]
pub(crate) struct SessionTask<'e> {
    pub(crate) image: Bytes,
    pub(crate) inputs: Bytes,
    pub(crate) nonce: [u8; NONCE_LEN],
    pub(crate) outputs: Bytes,
    pub(crate) bound: Option<Bound<'e>>,
}

/// The unsealing of a blob: room for what was sealed in it, and the name that it binds to this.
#[derive(Drop)]
pub(crate) struct UnsealTask<'e> {
    pub(crate) blob: Bytes,
    pub(crate) bytes: Bytes,
    pub(crate) bound: Option<Bound<'e>>,
}

/// The reading of a slot: room for its blob, and the name that it binds to this.
#[derive(Drop)]
pub(crate) struct SlotTask<'e> {
    pub(crate) j: u32,
    pub(crate) s: u32,
    pub(crate) bytes: Bytes,
    pub(crate) bound: Option<Bound<'e>>,
}

/// What an event comes to: what there is to do, with the values of its expressions.
#[derive(Drop)]
pub(crate) enum Task<'e> {
    /// Nothing.
    Rest,
    /// To answer why it is not done.
    Refuse(Refusal),
    /// To extend a register by the text `host` and these bytes.
    Extend {
        r: u32,
        text: Bytes,
    },
    /// To show a register.
    Read {
        r: u32,
    },
    /// To bind a name to a value.
    Bind {
        name: &'e [u8],
        value: Bytes,
    },
    /// To show a value.
    Show {
        value: Bytes,
    },
    /// To bind a name to an image, and to answer how long it is.
    BindImage {
        name: &'e [u8],
        image: Bytes,
    },
    /// To take a span of so many frames.
    Take {
        frames: u32,
    },
    /// To give back the span that starts at an address.
    Give {
        at: u32,
    },
    /// To write bytes of one span for the host.
    Poke {
        at: u32,
        bytes: Bytes,
    },
    /// To show bytes of one span, for which these have the room.
    Peek {
        at: u32,
        bytes: Vec<u8>,
    },
    /// To write bytes for a device.
    Dma {
        at: u32,
        bytes: Bytes,
    },
    /// To set a register of the processor.
    SetRegister {
        reg: u8,
        n: u32,
    },
    /// To show the registers of the processor.
    ShowRegisters,
    /// To arm a device write for a turn of the next session.
    Arm {
        turn: u32,
        at: u32,
        bytes: Bytes,
    },
    /// To run a session.
    RunSession(SessionTask<'e>),
    /// To give the device a seed.
    Seed {
        seed: Bytes,
    },
    /// To unseal a blob.
    Unseal(UnsealTask<'e>),
    /// To read a counter.
    ReadCounter {
        id: u8,
    },
    /// To draw a random word, and to bind a name to it, where there is one.
    Draw(Option<Bound<'e>>),
    /// To quote register 17 for a nonce, and to bind a name to the quote, where there is one.
    Quote {
        nonce: [u8; NONCE_LEN],
        bound: Option<Bound<'e>>,
    },
    /// To check whether bytes are the quote of a session.
    Check(CheckTask),
    /// To show the blob of a slot.
    ReadSlot(SlotTask<'e>),
    /// To write a blob into a slot.
    Overwrite {
        j: u32,
        s: u32,
        blob: Bytes,
    },
}

/// What an expression is worth: its value, or why it has none; neither where memory ran out.
pub(crate) fn worth(
    alloc: Global,
    expression: &Expr,
    vars: &Vars,
) -> Result<Result<Bytes, ExprFault>, NoMemory>
    ensures worth { IfOk result (λ worth. MatchResult worth
        (λ value. value_of expression.now vars.now.table ≡ Ok value.bytes)
        (λ fault. value_of expression.now vars.now.table ≡ Err fault)) }
    ensures short { IfOk result
        (λ worth. IfOk worth (λ value. length value.bytes ≤ LONGEST_VALUE)) }
    ensures memory { IsErr result → IsOk (value_of expression.now vars.now.table) }
{
    match expression.value(alloc, vars) {
        Ok(value) => return Ok(Ok(value)),
        Err(ExprError::Fault(fault)) => return Ok(Err(fault)),
        Err(ExprError::NoMemory) => return Err(NoMemory),
    }
}

fn extend_task(alloc: Global, r: u32, text: &Expr, vars: &Vars) -> Result<Task<'static>, NoMemory>
    ensures task { IfOk result
        (λ task. seen_task task ≡ value_task text.now vars.now.table (λ bytes. Extend r bytes)) }
    ensures memory { IsErr result → IsOk (value_of text.now vars.now.table) }
{
    match worth(alloc, text, vars)? {
        Ok(text) => return Ok(Task::Extend { r, text }),
        Err(fault) => return Ok(Task::Refuse(Refusal::NoValue(fault))),
    }
}

fn bind_task<'e>(
    alloc: Global,
    name: &'e [u8],
    value: &Expr,
    vars: &Vars,
) -> Result<Task<'e>, NoMemory>
    ensures task { IfOk result
        (λ task. seen_task task ≡ value_task value.now vars.now.table
        (λ bytes. Bind name.now bytes)) }
    ensures memory { IsErr result → IsOk (value_of value.now vars.now.table) }
{
    match worth(alloc, value, vars)? {
        Ok(value) => return Ok(Task::Bind { name, value }),
        Err(fault) => return Ok(Task::Refuse(Refusal::NoValue(fault))),
    }
}

fn show_task(alloc: Global, value: &Expr, vars: &Vars) -> Result<Task<'static>, NoMemory>
    ensures task { IfOk result
        (λ task. seen_task task ≡ value_task value.now vars.now.table (λ bytes. Show bytes)) }
    ensures memory { IsErr result → IsOk (value_of value.now vars.now.table) }
    ensures shown { IfOk result (λ task. IsShown (seen_task task)) }
{
    match worth(alloc, value, vars)? {
        Ok(value) => return Ok(Task::Show { value }),
        Err(fault) => return Ok(Task::Refuse(Refusal::NoValue(fault))),
    }
}

// The values of an image, beside its code.
#[derive(Clone, Copy)]
struct Front {
    job: bool,
    entry: u32,
    budget: u32,
}

fn image_of<'e>(
    alloc: Global,
    name: &'e [u8],
    front: Front,
    code: &[u8],
) -> Result<Task<'e>, NoMemory>
    ensures task { IfOk result (λ task. seen_task task
        ≡ image_or_fault name.now (build_fault front.entry front.budget code.now)
        (pack front.entry front.budget front.job code.now)) }
    ensures memory { IsErr result → build_fault front.entry front.budget code.now ≡ None }
{
    match build(alloc, code, front.entry, front.budget, front.job) {
        Ok(image) => return Ok(Task::BindImage { name, image }),
        Err(BuildError::NoMemory) => return Err(NoMemory),
        Err(BuildError::Image(fault)) => return Ok(Task::Refuse(Refusal::NoImage(fault))),
    }
}

fn image_task<'e>(
    alloc: Global,
    name: &'e [u8],
    front: Front,
    code: &Expr,
    vars: &Vars,
) -> Result<Task<'e>, NoMemory>
    ensures task { IfOk result (λ task. seen_task task
        ≡ value_task code.now vars.now.table (λ bytes.
        image_or_fault name.now (build_fault front.entry front.budget bytes)
        (pack front.entry front.budget front.job bytes))) }
    ensures memory { IsErr result → IsOk (value_of code.now vars.now.table) }
{
    match worth(alloc, code, vars)? {
        Ok(code) => return image_of(alloc, name, front, code.as_slice()),
        Err(fault) => return Ok(Task::Refuse(Refusal::NoValue(fault))),
    }
}

fn poke_task(alloc: Global, at: u32, bytes: &Expr, vars: &Vars) -> Result<Task<'static>, NoMemory>
    ensures task { IfOk result
        (λ task. seen_task task ≡ value_task bytes.now vars.now.table (λ value. Poke at value)) }
    ensures memory { IsErr result → IsOk (value_of bytes.now vars.now.table) }
{
    match worth(alloc, bytes, vars)? {
        Ok(bytes) => return Ok(Task::Poke { at, bytes }),
        Err(fault) => return Ok(Task::Refuse(Refusal::NoValue(fault))),
    }
}

fn peek_task(alloc: Global, at: u32, count: u32) -> Result<Task<'static>, NoMemory>
    ensures task { IfOk result (λ task. seen_task task ≡ peek_or_long at count) }
    ensures shown { IfOk result (λ task. IsShown (seen_task task)) }
    ensures memory { IsErr result → count ≤ LONGEST_VALUE }
{
    let count = count as usize;
    if count > LONGEST_VALUE {
        return Ok(Task::Refuse(Refusal::NoLong));
    }
    match vec![in alloc; 0; count] {
        Ok(bytes) => return Ok(Task::Peek { at, bytes }),
        Err(_) => return Err(NoMemory),
    }
}

fn dma_task(alloc: Global, at: u32, bytes: &Expr, vars: &Vars) -> Result<Task<'static>, NoMemory>
    ensures task { IfOk result
        (λ task. seen_task task ≡ value_task bytes.now vars.now.table (λ value. Dma at value)) }
    ensures memory { IsErr result → IsOk (value_of bytes.now vars.now.table) }
{
    match worth(alloc, bytes, vars)? {
        Ok(bytes) => return Ok(Task::Dma { at, bytes }),
        Err(fault) => return Ok(Task::Refuse(Refusal::NoValue(fault))),
    }
}

fn arm_task(
    alloc: Global,
    turn: u32,
    at: u32,
    bytes: &Expr,
    vars: &Vars,
) -> Result<Task<'static>, NoMemory>
    ensures task { IfOk result
        (λ task. seen_task task ≡ value_task bytes.now vars.now.table (λ value. Arm turn at value)) }
    ensures memory { IsErr result → IsOk (value_of bytes.now vars.now.table) }
{
    match worth(alloc, bytes, vars)? {
        Ok(bytes) => return Ok(Task::Arm { turn, at, bytes }),
        Err(fault) => return Ok(Task::Refuse(Refusal::NoValue(fault))),
    }
}

// Room for the outputs of a session, for what was sealed in a blob, or for the blob of a slot.
fn room_for_outputs(alloc: Global) -> Result<Bytes, NoMemory>
    ensures { IfOk result IsRoom }
{
    let mut outputs = Bytes::new(alloc);
    outputs.reserve(LONGEST_OUTPUTS)?;
    Ok(outputs)
}

// The name that a task binds, with room for what it shows.
fn bound_name<'e>(alloc: Global, name: &'e [u8]) -> Result<Bound<'e>, NoMemory>
    ensures { IfOk result (λ bound. (bound.name.now ≡ name.now) × IsRoom bound.value) }
{
    let value = room_for_outputs(alloc)?;
    Ok(Bound { name, value })
}

fn bound_of<'e>(alloc: Global, var: &'e Option<Bytes>) -> Result<Option<Bound<'e>>, NoMemory>
    ensures name { IfOk result (λ bound. option_map (λ b. b.name.now) bound
        ≡ option_map (λ name. name.bytes) var.now) }
    ensures room { IfOk result (λ bound. IfSome bound (λ b. IsRoom b.value)) }
    ensures memory { IsErr result → IsSome var.now }
{
    match var {
        None => return Ok(None),
        Some(name) => match bound_name(alloc, name.as_slice()) {
            Ok(bound) => return Ok(Some(bound)),
            Err(NoMemory) => return Err(NoMemory),
        },
    }
}

// A session of these values, where the nonce has 20 bytes.
fn session_of<'e>(
    alloc: Global,
    image: Bytes,
    inputs: Bytes,
    nonce: &[u8],
    var: &'e Option<Bytes>,
) -> Result<Task<'e>, NoMemory>
    ensures task { IfOk result (λ task. seen_task task
        ≡ session_or_nonce image.bytes inputs.bytes nonce.now (option_map (λ name. name.bytes) var.now)) }
    ensures room { IfOk result HasRoom }
{
    let Some(nonce) = nonce.as_array() else {
        return Ok(Task::Refuse(Refusal::NoNonce));
    };
    let outputs = room_for_outputs(alloc)?;
    let bound = bound_of(alloc, var)?;
    Ok(Task::RunSession(SessionTask {
        image,
        inputs,
        nonce: *nonce,
        outputs,
        bound,
    }))
}

fn seed_task(alloc: Global, seed: &Expr, vars: &Vars) -> Result<Task<'static>, NoMemory>
    ensures task { IfOk result
        (λ task. seen_task task ≡ value_task seed.now vars.now.table (λ bytes. Seed bytes)) }
    ensures memory { IsErr result → IsOk (value_of seed.now vars.now.table) }
{
    match worth(alloc, seed, vars)? {
        Ok(seed) => return Ok(Task::Seed { seed }),
        Err(fault) => return Ok(Task::Refuse(Refusal::NoValue(fault))),
    }
}

// To unseal a blob, with room for what was sealed in it.
fn unseal_of<'e>(alloc: Global, blob: Bytes, var: &'e Option<Bytes>) -> Result<Task<'e>, NoMemory>
    ensures task { IfOk result (λ task. seen_task task
        ≡ Unseal blob.bytes (option_map (λ name. name.bytes) var.now)) }
    ensures room { IfOk result HasRoom }
{
    let bytes = room_for_outputs(alloc)?;
    let bound = bound_of(alloc, var)?;
    Ok(Task::Unseal(UnsealTask { blob, bytes, bound }))
}

fn unseal_task<'e>(
    alloc: Global,
    blob: &Expr,
    var: &'e Option<Bytes>,
    vars: &Vars,
) -> Result<Task<'e>, NoMemory>
    ensures task { IfOk result (λ task. seen_task task
        ≡ value_task blob.now vars.now.table (λ bytes.
        Unseal bytes (option_map (λ name. name.bytes) var.now))) }
    ensures room { IfOk result HasRoom }
    ensures memory { IsErr result → IsOk (value_of blob.now vars.now.table) }
{
    match worth(alloc, blob, vars)? {
        Ok(blob) => return unseal_of(alloc, blob, var),
        Err(fault) => return Ok(Task::Refuse(Refusal::NoValue(fault))),
    }
}

// To read a counter, where there can be one of this number.
fn counter_task(id: u32) -> Task<'static>
    ensures { seen_task result ≡ counter_or_none id }
{
    if id <= u32::from(u8::MAX) {
        Task::ReadCounter { id: id as u8 }
    } else {
        Task::Refuse(Refusal::NoCounter)
    }
}

// To draw a random word, with room for the name's value.
fn draw_task<'e>(alloc: Global, var: &'e Option<Bytes>) -> Result<Task<'e>, NoMemory>
    ensures task { IfOk result (λ task. seen_task task
        ≡ Draw (option_map (λ name. name.bytes) var.now)) }
    ensures room { IfOk result HasRoom }
    ensures memory { IsErr result → IsSome var.now }
{
    match bound_of(alloc, var) {
        Ok(bound) => return Ok(Task::Draw(bound)),
        Err(NoMemory) => return Err(NoMemory),
    }
}

// A quote for these bytes, where they are 20, with room for the name's value.
fn quote_of<'e>(alloc: Global, nonce: &[u8], var: &'e Option<Bytes>) -> Result<Task<'e>, NoMemory>
    ensures task { IfOk result (λ task. seen_task task
        ≡ quote_or_nonce nonce.now (option_map (λ name. name.bytes) var.now)) }
    ensures room { IfOk result HasRoom }
{
    let Some(nonce) = nonce.as_array() else {
        return Ok(Task::Refuse(Refusal::NoNonce));
    };
    let bound = bound_of(alloc, var)?;
    Ok(Task::Quote {
        nonce: *nonce,
        bound,
    })
}

fn quote_task<'e>(
    alloc: Global,
    nonce: &Expr,
    var: &'e Option<Bytes>,
    vars: &Vars,
) -> Result<Task<'e>, NoMemory>
    ensures task { IfOk result (λ task. seen_task task
        ≡ value_task nonce.now vars.now.table (λ nonce.
        quote_or_nonce nonce (option_map (λ name. name.bytes) var.now))) }
    ensures room { IfOk result HasRoom }
    ensures memory { IsErr result → IsOk (value_of nonce.now vars.now.table) }
{
    match worth(alloc, nonce, vars)? {
        Ok(nonce) => return quote_of(alloc, nonce.as_slice(), var),
        Err(fault) => return Ok(Task::Refuse(Refusal::NoValue(fault))),
    }
}

// Whether the disk has a slot of these numbers.
fn is_slot(j: u32, s: u32) -> bool
    ensures { result ≡ is_slot j s }
{
    j < JOBS && s < 2
}

// To show the blob of a slot, with room for it.
fn slot_of<'e>(alloc: Global, j: u32, s: u32, var: &'e Option<Bytes>) -> Result<Task<'e>, NoMemory>
    ensures task { IfOk result (λ task. seen_task task
        ≡ ReadSlot j s (option_map (λ name. name.bytes) var.now)) }
    ensures room { IfOk result HasRoom }
{
    let bytes = room_for_outputs(alloc)?;
    let bound = bound_of(alloc, var)?;
    Ok(Task::ReadSlot(SlotTask { j, s, bytes, bound }))
}

// To show the blob of a slot, where there is one of these numbers.
fn slot_task<'e>(
    alloc: Global,
    j: u32,
    s: u32,
    var: &'e Option<Bytes>,
) -> Result<Task<'e>, NoMemory>
    ensures task { IfOk result (λ task. seen_task task
        ≡ slot_or_none j s (option_map (λ name. name.bytes) var.now)) }
    ensures room { IfOk result HasRoom }
    ensures slot { IfOk result (λ task. HasSlot (seen_task task)) }
    ensures memory { IsErr result → is_slot j s ≡ true }
{
    if is_slot(j, s) {
        return slot_of(alloc, j, s, var);
    }
    Ok(Task::Refuse(Refusal::NoSlot))
}

// To write a blob into a slot, where there is one of these numbers, and it has room for the blob.
fn overwrite_of(j: u32, s: u32, blob: Bytes) -> Task<'static>
    ensures task { seen_task result ≡ overwrite_or_refusal j s blob.bytes }
    ensures slot { HasSlot (seen_task result) }
{
    if !is_slot(j, s) {
        return Task::Refuse(Refusal::NoSlot);
    }
    if blob.as_slice().len() > LONGEST_BLOB {
        return Task::Refuse(Refusal::NoLong);
    }
    Task::Overwrite { j, s, blob }
}

fn overwrite_task(
    alloc: Global,
    j: u32,
    s: u32,
    blob: &Expr,
    vars: &Vars,
) -> Result<Task<'static>, NoMemory>
    ensures task { IfOk result (λ task. seen_task task
        ≡ value_task blob.now vars.now.table (λ bytes. overwrite_or_refusal j s bytes)) }
    ensures slot { IfOk result (λ task. HasSlot (seen_task task)) }
    ensures memory { IsErr result → IsOk (value_of blob.now vars.now.table) }
{
    match worth(alloc, blob, vars)? {
        Ok(blob) => return Ok(overwrite_of(j, s, blob)),
        Err(fault) => return Ok(Task::Refuse(Refusal::NoValue(fault))),
    }
}

// The values of a session's expressions, from the left.
fn session_task<'e>(
    alloc: Global,
    image: &Expr,
    inputs: &Expr,
    nonce: &Expr,
    var: &'e Option<Bytes>,
    vars: &Vars,
) -> Result<Task<'e>, NoMemory>
    ensures task { IfOk result (λ task. seen_task task
        ≡ value_task image.now vars.now.table (λ image.
        value_task inputs.now vars.now.table (λ inputs.
        value_task nonce.now vars.now.table (λ nonce.
        session_or_nonce image inputs nonce (option_map (λ name. name.bytes) var.now))))) }
    ensures room { IfOk result HasRoom }
    ensures memory { IsErr result → IsOk (value_of image.now vars.now.table) }
{
    let image = match worth(alloc, image, vars)? {
        Ok(image) => image,
        Err(fault) => return Ok(Task::Refuse(Refusal::NoValue(fault))),
    };
    let inputs = match worth(alloc, inputs, vars)? {
        Ok(inputs) => inputs,
        Err(fault) => return Ok(Task::Refuse(Refusal::NoValue(fault))),
    };
    match worth(alloc, nonce, vars)? {
        Ok(nonce) => return session_of(alloc, image, inputs, nonce.as_slice(), var),
        Err(fault) => return Ok(Task::Refuse(Refusal::NoValue(fault))),
    }
}

/// What an event comes to: its expressions have their values, with these variables. It allocates
/// for these.
pub(crate) fn task_of<'e>(
    alloc: Global,
    event: &'e Event,
    vars: &Vars,
) -> Result<Task<'e>, NoMemory>
    requires { HasShortName (request_of event.now) }
    ensures task { IfOk result (λ task. seen_task task
        ≡ task_of (request_of event.now) vars.now.table) }
    ensures named { IfOk result (λ task. IsNamed (seen_task task)) }
    ensures shown { IfOk result (λ task. IsShown (seen_task task)) }
    ensures room { IfOk result HasRoom }
    ensures slot { IfOk result (λ task. HasSlot (seen_task task)) }
    ensures memory { IsErr result → MayAllocateFor (request_of event.now) vars.now.table }
{
    match event {
        Event::Blank => return Ok(Task::Rest),
        Event::Extend { r, text } => return extend_task(alloc, *r, text, vars),
        Event::Read { r } => return Ok(Task::Read { r: *r }),
        Event::Let { var, value } => return bind_task(alloc, var.as_slice(), value, vars),
        Event::Show { value } => return show_task(alloc, value, vars),
        Event::Image {
            var,
            job,
            entry,
            budget,
            code,
        } => {
            let front = Front {
                job: *job,
                entry: *entry,
                budget: *budget,
            };
            return image_task(alloc, var.as_slice(), front, code, vars);
        }
        Event::Take { n } => return Ok(Task::Take { frames: *n }),
        Event::Give { at } => return Ok(Task::Give { at: *at }),
        Event::Poke { at, bytes } => return poke_task(alloc, *at, bytes, vars),
        Event::Peek { at, len } => return peek_task(alloc, *at, *len),
        Event::Dma { at, bytes } => return dma_task(alloc, *at, bytes, vars),
        Event::SetReg { reg, n } => return Ok(Task::SetRegister { reg: *reg, n: *n }),
        Event::Regs => return Ok(Task::ShowRegisters),
        Event::Arm { turn, at, bytes } => return arm_task(alloc, *turn, *at, bytes, vars),
        Event::Session {
            image,
            inputs,
            nonce,
            var,
        } => return session_task(alloc, image, inputs, nonce, var, vars),
        Event::Seed { seed } => return seed_task(alloc, seed, vars),
        Event::Unseal { blob, var } => return unseal_task(alloc, blob, var, vars),
        Event::Counter { id } => return Ok(counter_task(*id)),
        Event::Random { var } => return draw_task(alloc, var),
        Event::Quote { nonce, var } => return quote_task(alloc, nonce, var, vars),
        Event::Check {
            quote,
            image,
            inputs,
            outputs,
            end,
            nonce,
            texts,
        } => {
            let asked = Asked {
                quote,
                image,
                inputs,
                outputs,
                end: *end,
                nonce,
                texts,
            };
            return check_task(alloc, asked, vars);
        }
        Event::Slot { j, s, var } => return slot_task(alloc, *j, *s, var),
        Event::Overwrite { j, s, blob } => return overwrite_task(alloc, *j, *s, blob, vars),
    }
}

impl Task<'_> {
    /// The room that the line of its answer needs.
    pub(crate) fn room(&self) -> usize
        requires { IsShown (seen_task self.now) }
        ensures { result ≡ room (seen_task self.now) }
    {
        match self {
            Task::Rest => 0,
            Task::Show { value } => LINE_ROOM + 2 * value.as_slice().len(),
            Task::Peek { at: _, bytes } => LINE_ROOM + 2 * bytes.len(),
            Task::RunSession(_) => SESSION_ROOM,
            Task::Unseal(_) => UNSEAL_ROOM,
            Task::Quote { .. } => QUOTE_ROOM,
            Task::ReadSlot(_) => SLOT_ROOM,
            _ => REGISTER_ROOM,
        }
    }

    /// Whether it binds a name.
    pub(crate) fn binds(&self) -> bool
        ensures { result ≡ binds (seen_task self.now) }
    {
        match self {
            Task::Bind { .. } | Task::BindImage { .. } => true,
            Task::RunSession(session) => session.bound.is_some(),
            Task::Unseal(unseal) => unseal.bound.is_some(),
            Task::Draw(bound) => bound.is_some(),
            Task::Quote { nonce: _, bound } => bound.is_some(),
            Task::ReadSlot(slot) => slot.bound.is_some(),
            _ => false,
        }
    }

    /// Whether it takes a span.
    pub(crate) fn takes(&self) -> bool
        ensures { result ≡ takes (seen_task self.now) }
    {
        matches!(self, Task::Take { .. })
    }
}
