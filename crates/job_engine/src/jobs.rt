//! The list of jobs, and the calls that a host makes.
ghost use Rattle.std.specs.Prelude.{◌≡◌, ◌≤◌, ◌<◌, ◌+◌, ◌++◌, ◌∷◌, [], length, true, vec_len, vec_capacity, position, None, IfOk, IfNone, IfSome};
ghost use Rattle.std.specs.Str.{bytes_eq};
ghost use Rattle.slb_image.specs.Faults.{image_fault};
ghost use Rattle.job_engine.specs.Jobs.{AreJobs, IsJobImage, is_job_image, place_of, IsPlaceOf, new_refusal};
ghost use Rattle.job_engine.specs.Answers.{output_answer, slot_answer, jobs_seen, job_seen, jobs_after};

use crate::calls::{bear, step};
use crate::ends::{JobEnd, LONGEST_INPUTS};
use crate::parts::{Exit, PAGE_SIZE, SlotFound, find};
use flk_base::{Bytes, NoMemory};
use job_store::{Disk, JOBS, SLOT_LEN};
use late_launch::{Board, Dark};
use slb_image::view;
use std::alloc::Global;
use std::marker::Model;

/// A job of the list.
#[derive(Drop)]
struct Entry {
    name: Bytes,
    image: Bytes,
}

/// A job's place in the list, and its image.
#[derive(Clone, Copy)]
struct Place<'j> {
    j: u32,
    image: &'j [u8],
}

/// Jobs by their names: the j-th of them has the slots (j, 0) and (j, 1).
#[derive(Drop)]
pub struct Jobs {
    entries: Vec<Entry>,
    alloc: Global,
}

impl Model for Jobs {
    ghost use Rattle.std.specs.Prelude.{List};
    ghost use Rattle.job_engine.specs.Jobs.{Job, AreJobs};
    ghost use Rattle.job_engine.specs.Answers.{jobs_seen};

    ghost Value = { List Job };

    ghost view = { λ j. jobs_seen j.entries.items };

    ghost invariant = { λ j. AreJobs (jobs_seen j.entries.items) };
}

/// What a call answers that gives out so many bytes.
fn output_answer(ended: Result<(Board, u16), Exit>) -> Result<(Board, JobEnd), Dark>
    ensures { result ≡ output_answer ended }
{
    match ended {
        Ok(both) => {
            let (board, count) = both;
            return Ok((board, JobEnd::Done(count)));
        }
        Err(Exit::Ended(board, end)) => return Ok((board, end)),
        Err(Exit::Dark(dark)) => return Err(dark),
    }
}

/// What a call answers that finds a slot.
fn slot_answer(ended: Result<(Board, SlotFound), Exit>) -> Result<(Board, JobEnd), Dark>
    requires { IfOk ended (λ both. both.1.slot < 256) }
    ensures { result ≡ slot_answer ended }
{
    match ended {
        Ok(both) => {
            let (board, found) = both;
            return Ok((board, JobEnd::Found(found.slot as u8)));
        }
        Err(Exit::Ended(board, end)) => return Ok((board, end)),
        Err(Exit::Dark(dark)) => return Err(dark),
    }
}

/// Whether the bytes are an image, and a job's.
fn is_job_image(image: &[u8]) -> bool
    ensures test { result ≡ is_job_image image.now (image_fault image.now) }
    ensures job { result ≡ true → IsJobImage image.now }
{
    match view(image) {
        Ok(image) => image.job(),
        Err(_) => false,
    }
}

/// The place of the entry of this name.
fn place_in(entries: &[Entry], name: &[u8]) -> Option<usize>
    ensures { result ≡ position (λ entry. bytes_eq (job_seen entry).name name.now) entries.now }
{
    entries
        .iter()
        .position(|entry| entry.name.as_slice() == name)
}

/// The job of this name, in a list of no more than there are slots for.
fn job_in<'j>(entries: &'j [Entry], name: &[u8]) -> Option<Place<'j>>
    requires { AreJobs (jobs_seen entries.now) }
    ensures none { IfNone result (place_of (jobs_seen entries.now) name.now ≡ None) }
    ensures some { IfSome result (λ place. IsPlaceOf (jobs_seen entries.now) name.now place.j place.image.now) }
{
    match place_in(entries, name) {
        None => None,
        Some(j) => Some(Place {
            j: j as u32,
            image: entries[j].image.as_slice(),
        }),
    }
}

/// Adds an entry, for which there is room, where the call of its job was done.
fn settle(entries: &mut Vec<Entry>, entry: Entry, answer: &Result<(Board, JobEnd), Dark>)
    requires { vec_len entries.old + 1 ≤ vec_capacity entries.old }
    ensures { jobs_seen entries.new.items
        ≡ jobs_after (jobs_seen entries.old.items) (job_seen entry).name (job_seen entry).image answer.now }
{
    if let Ok((_, JobEnd::Done(_))) = answer {
        add(entries, entry);
    }
}

/// How many jobs there are.
fn count_of(entries: &[Entry]) -> usize
    ensures { result ≡ length (jobs_seen entries.now) }
{
    entries.len()
}

/// Room for one more entry, and the entry.
fn room_for(
    alloc: Global,
    entries: &mut Vec<Entry>,
    name: &[u8],
    image: &[u8],
) -> Result<Entry, NoMemory>
    ensures kept { entries.new.items ≡ entries.old.items }
    ensures room { IfOk result (λ entry. vec_len entries.new + 1 ≤ vec_capacity entries.new) }
    ensures entry { IfOk result (λ entry. job_seen entry ≡ record { name = name.now; image = image.now }) }
{
    let mut entry = Entry {
        name: Bytes::new(alloc),
        image: Bytes::new(alloc),
    };
    entry.name.push_all(name)?;
    entry.image.push_all(image)?;
    match entries.reserve(1) {
        Ok(()) => Ok(entry),
        Err(_) => Err(NoMemory),
    }
}

/// Adds an entry for which there is room.
fn add(entries: &mut Vec<Entry>, entry: Entry)
    requires { vec_len entries.old + 1 ≤ vec_capacity entries.old }
    ensures { entries.new.items ≡ entries.old.items ++ entry ∷ [] }
{
    if entries.push(entry).is_err() {
        unreachable!();
    }
}

impl Jobs {
    ghost use Rattle.std.specs.Prelude.{◌≡◌, [], is_some};
    ghost use Rattle.job_store.specs.Commands.{MayReply};
    ghost use Rattle.session_driver.specs.Answers.{no_outputs};
    ghost use Rattle.job_engine.specs.Jobs.{place_of, new_refusal};
    ghost use Rattle.job_engine.specs.Calls.{births_told, new_course, step_course, recover_course};
    ghost use Rattle.job_engine.specs.Answers.{Carried, CallEnds, jobs_after};

    /// No jobs. It allocates nothing.
    pub fn new(alloc: Global) -> Jobs
        ensures { result ≡ [] }
    {
        Jobs {
            entries: Vec::new(alloc),
            alloc,
        }
    }

    /// Whether there is a job of this name.
    pub fn knows(&self, name: &[u8]) -> bool
        ensures { result ≡ is_some (place_of self.now name.now) }
    {
        job_in(&self.entries, name).is_some()
    }

    /// Why a job can't be added, before anything is done for it.
    fn new_refusal(&self, name: &[u8], image: &[u8], inputs: &[u8]) -> Option<JobEnd>
        ensures why { result ≡ new_refusal self.now name.now image.now inputs.now }
        ensures image { IfNone result (IsJobImage image.now) }
        ensures few { IfNone result (length self.now < JOBS) }
        ensures short { IfNone result (length inputs.now ≤ LONGEST_INPUTS) }
    {
        if self.knows(name) {
            return Some(JobEnd::Exists);
        }
        if self.entries.len() >= JOBS as usize {
            return Some(JobEnd::TooMany);
        }
        if !is_job_image(image) {
            return Some(JobEnd::BadImage);
        }
        if inputs.len() > LONGEST_INPUTS {
            return Some(JobEnd::LongInput);
        }
        None
    }

    /// Adds a job: its image runs once, on these inputs, and the state that it leaves is sealed and kept in slot 0 of
    /// its place. The output of its code comes to `out`, and zeros after it; where the job is not added, `out` is all
    /// zero, and the list as it was.
    ///
    /// # Errors
    ///
    /// Where the power was lost in it.
    pub fn new_job<D: Disk>(
        &mut self,
        board: Board,
        disk: &mut D,
        name: &[u8],
        image: &[u8],
        inputs: &[u8],
        out: &mut [u8; PAGE_SIZE],
    ) -> Result<(Board, JobEnd), Dark>
        ensures call { CallEnds (MayReply D.contents D.fault_count D.call_gives)
            (new_course self.old name.now image.now inputs.now) board disk.old disk.new result out.new }
        ensures jobs { self.new ≡ jobs_after self.old name.now image.now result }
    {
        *out = [0; PAGE_SIZE];
        match self.new_refusal(name, image, inputs) {
            Some(why) => return Ok((board, why)),
            None => return self.add_job(board, disk, name, image, inputs, out),
        }
    }

    /// Adds a job that can be added.
    fn add_job<D: Disk>(
        &mut self,
        board: Board,
        disk: &mut D,
        name: &[u8],
        image: &[u8],
        inputs: &[u8],
        out: &mut [u8; PAGE_SIZE],
    ) -> Result<(Board, JobEnd), Dark>
        requires image { IsJobImage image.now }
        requires few { length self.old < JOBS }
        requires short { length inputs.now ≤ LONGEST_INPUTS }
        requires blank { out.old ≡ no_outputs }
        ensures call { Carried (MayReply D.contents D.fault_count D.call_gives) image.now
            (births_told (length self.old) inputs.now) board disk.old disk.new result out.new }
        ensures jobs { self.new ≡ jobs_after self.old name.now image.now result }
    {
        let j = count_of(&self.entries) as u32;
        match room_for(self.alloc, &mut self.entries, name, image) {
            Err(NoMemory) => return Ok((board, JobEnd::NoMemory)),
            Ok(entry) => {
                let answer = output_answer(bear(self.alloc, board, disk, image, j, inputs, out));
                settle(&mut self.entries, entry, &answer);
                return answer;
            }
        }
    }

    /// Takes a step of a job: its code runs on the state that opens and on these inputs, its new state is sealed and
    /// kept in the other slot, and only then committed. The output of its code comes to `out`, and zeros after it; else
    /// `out` is all zero.
    ///
    /// # Errors
    ///
    /// Where the power was lost in it.
    pub fn step<D: Disk>(
        &mut self,
        board: Board,
        disk: &mut D,
        name: &[u8],
        inputs: &[u8],
        out: &mut [u8; PAGE_SIZE],
    ) -> Result<(Board, JobEnd), Dark>
        ensures call { CallEnds (MayReply D.contents D.fault_count D.call_gives) (step_course self.old name.now inputs.now)
            board disk.old disk.new result out.new }
        ensures jobs { self.new ≡ self.old }
    {
        *out = [0; PAGE_SIZE];
        let Some(place) = job_in(&self.entries, name) else {
            return Ok((board, JobEnd::Unknown));
        };
        if inputs.len() > LONGEST_INPUTS {
            return Ok((board, JobEnd::LongInput));
        }
        return output_answer(step(self.alloc, board, disk, place.image, place.j, inputs, out));
    }

    /// Finds the slot of a job that opens.
    ///
    /// # Errors
    ///
    /// Where the power was lost in it.
    pub fn recover<D: Disk>(
        &mut self,
        board: Board,
        disk: &mut D,
        name: &[u8],
    ) -> Result<(Board, JobEnd), Dark>
        ensures call { CallEnds (MayReply D.contents D.fault_count D.call_gives) (recover_course self.old name.now) board
            disk.old disk.new result no_outputs }
        ensures jobs { self.new ≡ self.old }
    {
        let Some(place) = job_in(&self.entries, name) else {
            return Ok((board, JobEnd::Unknown));
        };
        let mut blob = [0; SLOT_LEN];
        return slot_answer(find(self.alloc, board, disk, place.image, place.j, &mut blob));
    }
}
