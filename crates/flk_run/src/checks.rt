// The check of a quote: the session that is described, and whether the quote is its.
ghost use Rattle.std.specs.Prelude.{◌≡◌, ◌↔◌, [], ◌∷◌, ◌++◌, map, IfOk, IsOk, IsErr, OnOk, MatchResult};
ghost use Rattle.std.specs.Prelude.{Ok, Err, IsTrue};
ghost use Rattle.flk_hmac.specs.Quotes.{quote_of};
ghost use Rattle.tpm_state.specs.Chain.{value};
ghost use Rattle.tpm_state.specs.Sessions.{running_chain, session_chain};
ghost use Rattle.expr_text.specs.Values.{value_of};
ghost use Rattle.flk_run.specs.Seen.{seen_session, seen_task};
ghost use Rattle.script_text.specs.Grammar.{CheckOf};
ghost use Rattle.flk_run.specs.Tasks.{value_task, tasks_or_fault, values_of, check_or_refusal, task_of};

use crate::answers::Refusal;
use crate::tasks::{NONCE_LEN, Task, worth};
use flk_base::{Bytes, NoMemory};
use quote_check::Check;
use script_text::{Expr, ExprFault, Exprs, Vars};
use std::alloc::Global;

/// The check of a quote: the bytes that are shown, and the session that they are to be the quote of.
#[derive(Drop)]
pub(crate) struct CheckTask {
    pub(crate) quote: Bytes,
    pub(crate) image: Bytes,
    pub(crate) texts: Vec<Bytes>,
    pub(crate) inputs: Bytes,
    pub(crate) outputs: Bytes,
    pub(crate) end: u8,
    pub(crate) nonce: [u8; NONCE_LEN],
}

// A session of this image whose code extended register 17 by these texts, in their order.
fn described(image: &[u8], texts: &[Bytes]) -> Check
    ensures { result ≡ value (running_chain image.now (map (λ text. text.bytes) texts.now)) }
{
    let mut check = Check::new(image);
    for text in texts {
        check.extend(text.as_slice());
    }
    check
}

/// Whether the bytes that are shown are the quote of the session, under this key.
pub(crate) fn is_said(key: &[u8; 20], check: &CheckTask) -> bool
    ensures { IsTrue result ↔ (check.now.quote.bytes ≡ quote_of key.now check.now.nonce
        (value (session_chain (seen_session check.now)))) }
{
    described(check.image.as_slice(), check.texts.as_slice()).verdict(
        key,
        check.inputs.as_slice(),
        check.outputs.as_slice(),
        check.end,
        &check.nonce,
        check.quote.as_slice(),
    )
}

// One value more.
fn push_value(values: &mut Vec<Bytes>, value: Bytes) -> Result<(), NoMemory>
    ensures { OnOk result (map (λ held. held.bytes) values.new.items
        ≡ map (λ held. held.bytes) values.old.items ++ value.bytes ∷ []) }
{
    match values.push(value) {
        Ok(()) => Ok(()),
        Err(_) => Err(NoMemory),
    }
}

// What expressions are worth: their values, or the first fault from the left; neither where memory
// ran out.
fn worths(
    alloc: Global,
    expressions: &Exprs,
    vars: &Vars,
) -> Result<Result<Vec<Bytes>, ExprFault>, NoMemory>
    ensures { IfOk result (λ worth. MatchResult worth
        (λ values. values_of expressions.now vars.now.table
        ≡ Ok (map (λ value. value.bytes) values.items))
        (λ fault. values_of expressions.now vars.now.table ≡ Err fault)) }
{
    let mut values = Vec::new(alloc);
    for i in 0..expressions.len() {
        let Some(expression) = expressions.get(i) else {
            unreachable!()
        };
        match worth(alloc, expression, vars)? {
            Ok(value) => push_value(&mut values, value)?,
            Err(fault) => return Ok(Err(fault)),
        }
    }
    Ok(Ok(values))
}

/// What the line of a check asks for.
#[derive(Clone, Copy)]
pub(crate) struct Asked<'e> {
    pub(crate) quote: &'e Expr,
    pub(crate) image: &'e Expr,
    pub(crate) inputs: &'e Expr,
    pub(crate) outputs: &'e Expr,
    pub(crate) end: u32,
    pub(crate) nonce: &'e Expr,
    pub(crate) texts: &'e Exprs,
}

// The quote and the image that a check shows, and what went in and came out.
#[derive(Drop)]
struct Shown {
    quote: Bytes,
    image: Bytes,
    inputs: Bytes,
    outputs: Bytes,
}

// A check of these values, where the nonce has 20 bytes and there can be such an end.
fn check_of(shown: Shown, end: u32, nonce: &[u8], texts: Vec<Bytes>) -> Task<'static>
    ensures { seen_task result
        ≡ check_or_refusal
        (record {
          image = shown.image.bytes;
          texts = map (λ text. text.bytes) texts.items;
          inputs = shown.inputs.bytes;
          outputs = shown.outputs.bytes;
          end = end;
          nonce = nonce.now;
        }) shown.quote.bytes }
{
    let Some(nonce) = nonce.as_array() else {
        return Task::Refuse(Refusal::NoNonce);
    };
    if end > u32::from(u8::MAX) {
        return Task::Refuse(Refusal::NoEnd);
    }
    let Shown {
        quote,
        image,
        inputs,
        outputs,
    } = shown;
    Task::Check(CheckTask {
        quote,
        image,
        texts,
        inputs,
        outputs,
        end: end as u8,
        nonce: *nonce,
    })
}

// The same, once the nonce and the texts have their values.
fn check_shown(
    alloc: Global,
    shown: Shown,
    asked: Asked<'_>,
    vars: &Vars,
) -> Result<Task<'static>, NoMemory>
    ensures { IfOk result (λ task. seen_task task
        ≡ value_task asked.entry.nonce.now vars.now.table (λ nonce.
        tasks_or_fault (values_of asked.entry.texts.now vars.now.table) (λ texts.
        check_or_refusal
        (record {
          image = shown.image.bytes;
          texts = texts;
          inputs = shown.inputs.bytes;
          outputs = shown.outputs.bytes;
          end = asked.entry.end;
          nonce = nonce;
        }) shown.quote.bytes))) }
{
    let nonce = match worth(alloc, asked.nonce, vars)? {
        Ok(nonce) => nonce,
        Err(fault) => return Ok(Task::Refuse(Refusal::NoValue(fault))),
    };
    match worths(alloc, asked.texts, vars)? {
        Ok(texts) => return Ok(check_of(shown, asked.end, nonce.as_slice(), texts)),
        Err(fault) => return Ok(Task::Refuse(Refusal::NoValue(fault))),
    }
}

// The same, once what went in and came out have their values too.
fn check_claimed(
    alloc: Global,
    quote: Bytes,
    image: Bytes,
    asked: Asked<'_>,
    vars: &Vars,
) -> Result<Task<'static>, NoMemory>
    ensures { IfOk result (λ task. seen_task task
        ≡ value_task asked.entry.inputs.now vars.now.table (λ inputs.
        value_task asked.entry.outputs.now vars.now.table (λ outputs.
        value_task asked.entry.nonce.now vars.now.table (λ nonce.
        tasks_or_fault (values_of asked.entry.texts.now vars.now.table) (λ texts.
        check_or_refusal
        (record {
          image = image.bytes;
          texts = texts;
          inputs = inputs;
          outputs = outputs;
          end = asked.entry.end;
          nonce = nonce;
        }) quote.bytes))))) }
{
    let inputs = match worth(alloc, asked.inputs, vars)? {
        Ok(inputs) => inputs,
        Err(fault) => return Ok(Task::Refuse(Refusal::NoValue(fault))),
    };
    match worth(alloc, asked.outputs, vars)? {
        Ok(outputs) => {
            let shown = Shown {
                quote,
                image,
                inputs,
                outputs,
            };
            return check_shown(alloc, shown, asked, vars);
        }
        Err(fault) => return Ok(Task::Refuse(Refusal::NoValue(fault))),
    }
}

/// What the line of a check comes to: its expressions have their values, from the left.
pub(crate) fn check_task(
    alloc: Global,
    asked: Asked<'_>,
    vars: &Vars,
) -> Result<Task<'static>, NoMemory>
    ensures task { IfOk result (λ task. seen_task task
        ≡ task_of (CheckOf asked.entry.quote.now asked.entry.image.now asked.entry.inputs.now asked.entry.outputs.now
        asked.entry.end asked.entry.nonce.now asked.entry.texts.now) vars.now.table) }
    ensures memory { IsErr result → IsOk (value_of asked.entry.quote.now vars.now.table) }
{
    let quote = match worth(alloc, asked.quote, vars)? {
        Ok(quote) => quote,
        Err(fault) => return Ok(Task::Refuse(Refusal::NoValue(fault))),
    };
    match worth(alloc, asked.image, vars)? {
        Ok(image) => return check_claimed(alloc, quote, image, asked, vars),
        Err(fault) => return Ok(Task::Refuse(Refusal::NoValue(fault))),
    }
}
