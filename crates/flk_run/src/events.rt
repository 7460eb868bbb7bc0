// What an event does, once its values are there.
ghost use Rattle.std.specs.Prelude.{◌≡◌, ◌≤◌, true, false, IfOk, IsErr, OnErr};
ghost use Rattle.std.specs.Option.{option_map, IfSome};
ghost use Rattle.script_text.specs.Seen.{IsShortName};
ghost use Rattle.seal_device.specs.Digests.{digests};
ghost use Rattle.flk_run.specs.Answers.{room_of};
ghost use Rattle.flk_run.specs.Events.{task_step};
ghost use Rattle.flk_run.specs.Seen.{platform_at, seen_task, seen_answer, binds, takes, may_run_out, IsNamed, IsRoom, HasRoom, HasSlot, HasShortOutputs, IsShortShown};
ghost use Rattle.flk_run.specs.Tasks.{Quote, room, MayAllocate};
ghost use Rattle.flk_run.specs.Sessions.{table_after, table_with, shown_in};
ghost use Rattle.flk_run.specs.declared.answers.TheConstants.{QUOTE_ROOM, REGISTER_ROOM, SESSION_ROOM, SLOT_ROOM, UNSEAL_ROOM};
ghost use Rattle.flk_run.specs.declared.tasks.Task.TheVariants as HeldTask;

use crate::answers::Answer;
use crate::host::Host;
use crate::tasks::{Bound, SessionTask, SlotTask, Task, UnsealTask};
use flk_base::{Bytes, NoMemory};
use script_text::Vars;

/// Does a task, for whose name, ticket and outputs there is room. Where memory runs out, as it may for
/// a write that is armed and for the bytes of a span or of a session's area, nothing is done.
pub(crate) fn perform(
    host: Host,
    vars: &mut Vars,
    task: Task<'_>,
) -> (Host, Result<Answer, NoMemory>)
    requires named { IsNamed (seen_task task) }
    requires room { HasRoom task }
    requires slot { HasSlot (seen_task task) }
    requires name { binds (seen_task task) ≡ true → 1 ≤ vars.old.spare }
    requires ticket { takes (seen_task task) ≡ true → 1 ≤ host.spare }
    ensures untaken { result.0.untaken ≡ host.untaken }
    ensures done { IfOk result.1 (λ answer. host.untaken ≡ true →
        (platform_at result.0 vars.new.table, seen_answer answer)
        ≡ task_step digests (seen_task task.entry)
        (platform_at host vars.old.table)) }
    ensures fits { IfOk result.1 (λ answer. room_of (seen_answer answer) ≤ room (seen_task task.entry)) }
    ensures short { IfOk result.1 (λ answer. HasShortOutputs (seen_answer answer)) }
    ensures kept { OnErr result.1 (result.0 ≡ host) }
    ensures table { OnErr result.1 (vars.new.table ≡ vars.old.table) }
    ensures memory { IsErr result.1 → MayAllocate (seen_task task.entry) }
{
    match task {
        Task::Arm { turn, at, bytes } => return host.arm(turn, at, bytes.as_slice()),
        Task::Take { frames } => return host.take(frames),
        Task::RunSession(session) => return run_session(host, vars, session),
        task => {
            let (host, answer) = done(host, vars, task);
            return (host, Ok(answer));
        }
    }
}

// Does a task that allocates nothing.
fn done(host: Host, vars: &mut Vars, task: Task<'_>) -> (Host, Answer)
    requires named { IsNamed (seen_task task) }
    requires room { HasRoom task }
    requires slot { HasSlot (seen_task task) }
    requires name { binds (seen_task task) ≡ true → 1 ≤ vars.old.spare }
    requires ticket { takes (seen_task task) ≡ true → 1 ≤ host.spare }
    requires never { may_run_out (seen_task task) ≡ false }
    ensures untaken { result.0.untaken ≡ host.untaken }
    ensures done { host.untaken ≡ true →
        (platform_at result.0 vars.new.table, seen_answer result.1)
        ≡ task_step digests (seen_task task.entry)
        (platform_at host vars.old.table) }
    ensures fits { room_of (seen_answer result.1) ≤ room (seen_task task.entry) }
    ensures short { HasShortOutputs (seen_answer result.1) }
{
    match task {
        Task::Rest => return (host, Answer::Quiet),
        Task::Refuse(refusal) => return (host, Answer::Refused(refusal)),
        Task::Extend { r, text } => return host.extend(r, text.as_slice()),
        Task::Read { r } => return host.read(r),
        Task::Bind { name, value } => {
            vars.put(name, value);
            return (host, Answer::Done);
        }
        Task::Show { value } => return (host, Answer::Shows(value)),
        Task::BindImage { name, image } => {
            let length = image.as_slice().len();
            vars.put(name, image);
            return (host, Answer::Counts(length));
        }
        Task::Take { .. } | Task::RunSession(_) | Task::Arm { .. } => unreachable!(),
        Task::Give { at } => return host.give(at),
        Task::Poke { at, bytes } => return host.poke(at, bytes.as_slice()),
        Task::Peek { at, bytes } => return host.peek(at, bytes),
        Task::Dma { at, bytes } => return host.dma(at, bytes.as_slice()),
        Task::SetRegister { reg, n } => return host.set_register(reg, n),
        Task::ShowRegisters => return host.show_registers(),
        Task::Seed { seed } => return host.seed(seed.as_slice()),
        Task::Unseal(unseal) => return run_unseal(host, vars, unseal),
        Task::ReadCounter { id } => return host.read_counter(id),
        Task::Draw(bound) => return run_draw(host, vars, bound),
        Task::Quote { nonce, bound } => return run_quote(host, vars, &nonce, bound),
        Task::Check(check) => return host.check(&check),
        Task::ReadSlot(slot) => return run_slot(host, vars, slot),
        Task::Overwrite { j, s, blob } => return host.overwrite(j, s, blob.as_slice()),
    }
}

// Runs a session, and binds its name to the outputs, where it has one and the session ended.
fn run_session(
    host: Host,
    vars: &mut Vars,
    session: SessionTask<'_>,
) -> (Host, Result<Answer, NoMemory>)
    requires named { IsNamed (seen_task (HeldTask.RunSession session)) }
    requires room { HasRoom (HeldTask.RunSession session) }
    requires name { binds (seen_task (HeldTask.RunSession session)) ≡ true → 1 ≤ vars.old.spare }
    ensures untaken { result.0.untaken ≡ host.untaken }
    ensures done { IfOk result.1 (λ answer. host.untaken ≡ true →
        (platform_at result.0 vars.new.table, seen_answer answer)
        ≡ task_step digests (seen_task (HeldTask.RunSession session.entry))
        (platform_at host vars.old.table)) }
    ensures fits { IfOk result.1 (λ answer. room_of (seen_answer answer) ≤ SESSION_ROOM) }
    ensures short { IfOk result.1 (λ answer. HasShortOutputs (seen_answer answer)) }
    ensures kept { OnErr result.1 (result.0 ≡ host) }
    ensures table { OnErr result.1 (vars.new.table ≡ vars.old.table) }
{
    let SessionTask {
        image,
        inputs,
        nonce,
        outputs,
        bound,
    } = session;
    let (host, answer) = host.session(image.as_slice(), inputs.as_slice(), &nonce, outputs);
    match answer {
        Ok(answer) => {
            if let Some(Bound { name, value }) = bound {
                bind_outputs(vars, name, value, &answer);
            }
            return (host, Ok(answer));
        }
        Err(NoMemory) => return (host, Err(NoMemory)),
    }
}

// Unseals a blob, and binds its name to what was sealed in it, where it has one and the blob opened.
fn run_unseal(host: Host, vars: &mut Vars, unseal: UnsealTask<'_>) -> (Host, Answer)
    requires named { IsNamed (seen_task (HeldTask.Unseal unseal)) }
    requires room { HasRoom (HeldTask.Unseal unseal) }
    requires name { binds (seen_task (HeldTask.Unseal unseal)) ≡ true → 1 ≤ vars.old.spare }
    ensures untaken { result.0.untaken ≡ host.untaken }
    ensures done { host.untaken ≡ true →
        (platform_at result.0 vars.new.table, seen_answer result.1)
        ≡ task_step digests (seen_task (HeldTask.Unseal unseal.entry))
        (platform_at host vars.old.table) }
    ensures fits { room_of (seen_answer result.1) ≤ UNSEAL_ROOM }
    ensures short { HasShortOutputs (seen_answer result.1) }
{
    let UnsealTask { blob, bytes, bound } = unseal;
    let (host, answer) = host.unseal(blob.as_slice(), bytes);
    if let Some(Bound { name, value }) = bound {
        bind_bytes(vars, name, value, &answer);
    }
    (host, answer)
}

// Reads a slot, and binds its name to the blob, where it has one and the slot holds one.
fn run_slot(host: Host, vars: &mut Vars, slot: SlotTask<'_>) -> (Host, Answer)
    requires named { IsNamed (seen_task (HeldTask.ReadSlot slot)) }
    requires room { HasRoom (HeldTask.ReadSlot slot) }
    requires slot { HasSlot (seen_task (HeldTask.ReadSlot slot)) }
    requires name { binds (seen_task (HeldTask.ReadSlot slot)) ≡ true → 1 ≤ vars.old.spare }
    ensures untaken { result.0.untaken ≡ host.untaken }
    ensures done { host.untaken ≡ true →
        (platform_at result.0 vars.new.table, seen_answer result.1)
        ≡ task_step digests (seen_task (HeldTask.ReadSlot slot.entry))
        (platform_at host vars.old.table) }
    ensures fits { room_of (seen_answer result.1) ≤ SLOT_ROOM }
    ensures short { HasShortOutputs (seen_answer result.1) }
{
    let SlotTask { j, s, bytes, bound } = slot;
    let (host, answer) = host.read_slot(j, s, bytes);
    if let Some(Bound { name, value }) = bound {
        bind_bytes(vars, name, value, &answer);
    }
    (host, answer)
}

// Draws a random word, and binds the name to it, where there is one and a word was drawn.
fn run_draw(host: Host, vars: &mut Vars, bound: Option<Bound<'_>>) -> (Host, Answer)
    requires named { IsNamed (seen_task (HeldTask.Draw bound)) }
    requires room { HasRoom (HeldTask.Draw bound) }
    requires name { binds (seen_task (HeldTask.Draw bound)) ≡ true → 1 ≤ vars.old.spare }
    ensures untaken { result.0.untaken ≡ host.untaken }
    ensures done { host.untaken ≡ true →
        (platform_at result.0 vars.new.table, seen_answer result.1)
        ≡ task_step digests (seen_task (HeldTask.Draw bound.entry))
        (platform_at host vars.old.table) }
    ensures fits { room_of (seen_answer result.1) ≤ REGISTER_ROOM }
    ensures short { HasShortOutputs (seen_answer result.1) }
{
    let (host, answer) = host.draw();
    if let Some(Bound { name, value }) = bound {
        bind_bytes(vars, name, value, &answer);
    }
    (host, answer)
}

// Quotes register 17 for a nonce, and binds the name to the quote, where there is one and it was made.
fn run_quote(
    host: Host,
    vars: &mut Vars,
    nonce: &[u8; 20],
    bound: Option<Bound<'_>>,
) -> (Host, Answer)
    requires named { IsNamed (Quote nonce.now (option_map (λ bound. bound.name.now) bound)) }
    requires room { IfSome bound (λ bound. IsRoom bound.value) }
    requires name { binds (Quote nonce.now (option_map (λ bound. bound.name.now) bound)) ≡ true
        → 1 ≤ vars.old.spare }
    ensures untaken { result.0.untaken ≡ host.untaken }
    ensures done { host.untaken ≡ true →
        (platform_at result.0 vars.new.table, seen_answer result.1)
        ≡ task_step digests (Quote nonce.now (option_map (λ bound. bound.name.now) bound.entry))
        (platform_at host vars.old.table) }
    ensures fits { room_of (seen_answer result.1) ≤ QUOTE_ROOM }
    ensures short { HasShortOutputs (seen_answer result.1) }
{
    let (host, answer) = host.quote(nonce);
    if let Some(Bound { name, value }) = bound {
        bind_bytes(vars, name, value, &answer);
    }
    (host, answer)
}

// Binds a name to the outputs of a session that ended.
fn bind_outputs(vars: &mut Vars, name: &[u8], value: Bytes, answer: &Answer)
    requires name { IsShortName name.now }
    requires room { IsRoom value }
    requires spare { 1 ≤ vars.old.spare }
    requires short { HasShortOutputs (seen_answer answer.now) }
    ensures { vars.new.table ≡ table_after name.now (seen_answer answer.now) vars.old.table }
{
    if let Answer::Ended(over) = answer {
        let mut value = value;
        value.put(over.outputs.as_slice());
        vars.put(name, value);
    }
}

// Binds a name to the bytes that an answer shows.
fn bind_bytes(vars: &mut Vars, name: &[u8], value: Bytes, answer: &Answer)
    requires name { IsShortName name.now }
    requires room { IsRoom value }
    requires spare { 1 ≤ vars.old.spare }
    requires short { IsShortShown (seen_answer answer.now) }
    ensures { vars.new.table ≡ table_with name.now (shown_in (seen_answer answer.now)) vars.old.table }
{
    if let Some(bytes) = shown_bytes(answer) {
        let mut value = value;
        value.put(bytes);
        vars.put(name, value);
    }
}

// The bytes that an answer shows, if it does.
fn shown_bytes(answer: &Answer) -> Option<&[u8]>
    ensures { option_map (λ bytes. bytes.now) result ≡ shown_in (seen_answer answer.now) }
{
    match answer {
        Answer::Register(value) => Some(value),
        Answer::Quoted(value) => Some(value),
        Answer::Shows(value) => Some(value.as_slice()),
        Answer::Peeked(bytes) => Some(bytes),
        _ => None,
    }
}
