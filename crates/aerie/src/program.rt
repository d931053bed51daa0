//! All that the program does.

ghost use Rattle.std.specs.Prelude.{◌≡◌, ◌≤◌, ◌<◌, ◌+◌, ℕ, List, Some, IfOk, IfErr, IsTrue, true, false, ◌⊎◌};
ghost use Rattle.std.specs.Io.KnownBytes.{IsAtEnd};
ghost use Rattle.aerie_edge.specs.Faults.{Rose};
ghost use Rattle.command_line.specs.Grammar.{texts_of};
ghost use Rattle.command_line.specs.Invocations.{HasNumbersWithin, invocation_of};
ghost use Rattle.aerie.specs.Input.{HasRead};
ghost use Rattle.aerie.specs.Output.{WritesAll, WritesFront};
ghost use Rattle.aerie.specs.Promises.{DoesAsPromised, sink_of, source_of};
ghost use Rattle.aerie.specs.Program.{ProgramAnswer, IsAnswerTo, counted_from, is_answered, is_status, number_of_status, reads_input};

use crate::answers::{Output, checked, made, named, performed};
use crate::exit_status::ExitStatus;
use crate::input::{InputError, read_input};
use crate::output::write_output;
use aerie_base::Steps;
use aerie_edge::{Gate, Sink, Source};
use command_line::{Invocation, Mode, read_words};
use std::alloc::Global;
use std::marker::Brand;
use std::sync::Wait;
use std::sync::ledger::{Blank, Ledger};
use std::thread::Threads;

/// What is written for an invocation. Only a session that is performed or judged is read.
fn output_for<R: Threads + Wait + Sync, S: Source, G: Gate, L: Ledger>(
    alloc: Global,
    rt: &R,
    invocation: &Invocation,
    source: &mut S,
    gate: &G,
    steps: &mut Steps<L>,
) -> Result<Output, InputError>
    requires within { HasNumbersWithin invocation.now }
    ensures answered { IfOk result (IsAnswerTo (Some invocation.now)
        (S.left source.old) (S.left source.new) (counted_from steps.old steps.new)) }
    ensures unread { reads_input (Some invocation.now) ≡ false → source.new ≡ source.old }
    ensures read { (input : List ℕ) × HasRead (S.left source.old) (S.left source.new) input }
    ensures reads { S.reads source.new ≤ S.reads source.old + 16_777_217 }
    ensures later { S.faults source.old ≤ S.faults source.new }
    ensures cause { IfErr result (λ e.
        e ≡ InputError.Failed → Rose (S.faults source.old) (S.faults source.new)) }
    ensures steps { steps.old ≤ steps.new }
{
    match invocation.mode {
        Mode::Make { number, text } => {
            let (limit, pieces) = (invocation.limit, invocation.pieces);
            Ok(made(alloc, rt, number, text, limit, pieces, gate, steps)?)
        }
        Mode::Check => {
            let input = read_input(alloc, source)?;
            Ok(checked(alloc, invocation.explain, &input)?)
        }
        Mode::Run => {
            let input = read_input(alloc, source)?;
            Ok(performed(alloc, rt, invocation, &input, gate, steps)?)
        }
    }
}

/// What is written for words.
fn output<R: Threads + Wait + Sync, S: Source, G: Gate, L: Ledger>(
    alloc: Global,
    rt: &R,
    words: &[String],
    source: &mut S,
    gate: &G,
    steps: &mut Steps<L>,
) -> Result<Output, InputError>
    ensures answered { IfOk result (IsAnswerTo (invocation_of (texts_of words.now))
        (S.left source.old) (S.left source.new) (counted_from steps.old steps.new)) }
    ensures unread { reads_input (invocation_of (texts_of words.now)) ≡ false → source.new ≡ source.old }
    ensures read { (input : List ℕ) × HasRead (S.left source.old) (S.left source.new) input }
    ensures reads { S.reads source.new ≤ S.reads source.old + 16_777_217 }
    ensures later { S.faults source.old ≤ S.faults source.new }
    ensures cause { IfErr result (λ e.
        e ≡ InputError.Failed → Rose (S.faults source.old) (S.faults source.new)) }
    ensures steps { steps.old ≤ steps.new }
{
    match read_words(alloc, words)? {
        None => Ok(named(alloc, ExitStatus::Words, "Words")?),
        Some(invocation) => output_for(alloc, rt, &invocation, source, gate, steps),
    }
}

/// Does all that the program does: reads the words, and by them a session from the source; judges it, performs it or makes
/// one; and writes the answer to the sink. Answers the status that the process ends with: 0 done, 2 the words are not in the
/// grammar, 3 the session is refused, 4 a read failed, 5 a write failed, 6 want of memory.
pub fn aerie<R: Threads + Wait + Sync, S: Source, K: Sink, G: Gate, L: Ledger>(
    rt: &R,
    alloc: Global,
    words: &[String],
    source: &mut S,
    sink: &mut K,
    gate: &G,
    steps: &mut Steps<L>,
) -> u8
    // No other status is answered.
    ensures statuses { IsTrue (is_status result) }

    // With 0, 2 and 3 the status and all that was written are the answer to the words and to the input, which was read to its
    // end, or as far as is read.
    ensures answered { IsTrue (is_answered result) → (answer : ProgramAnswer)
        × IsAnswerTo (invocation_of (texts_of words.now)) (S.left source.old) (S.left source.new)
        (counted_from steps.old steps.new) answer
        × (result ≡ number_of_status answer.status)
        × WritesAll (K.written sink.old) (K.written sink.new)
        (K.pieces sink.old) (K.pieces sink.new) answer.text }

    // Where no session is performed or judged, nothing is read.
    ensures unread { reads_input (invocation_of (texts_of words.now)) ≡ false → source.new ≡ source.old }

    // With status 0 a source that was read was read to its end.
    ensures whole { result ≡ 0 → reads_input (invocation_of (texts_of words.now)) ≡ true
        → IsAtEnd (S.left source.new) }

    // A read failed: the source counted it, and nothing was written.
    ensures read_failed { result ≡ 4
        → Rose (S.faults source.old) (S.faults source.new) × (sink.new ≡ sink.old) }

    // A write failed: the sink counted it, and exactly a front of the answer was written.
    ensures write_failed { result ≡ 5 → Rose (K.faults sink.old) (K.faults sink.new)
        × ((answer : ProgramAnswer)
        × IsAnswerTo (invocation_of (texts_of words.now)) (S.left source.old) (S.left source.new)
        (counted_from steps.old steps.new) answer
        × WritesFront (K.written sink.old) (K.written sink.new)
        (K.pieces sink.old) (K.pieces sink.new) answer.text) }

    // Want of memory: nothing was written.
    ensures memory { result ≡ 6 → sink.new ≡ sink.old }

    // Where no count of faults rose, the answer was given and written, or memory was wanted.
    ensures complete { ¬ (Rose (S.faults source.old) (S.faults source.new))
        → ¬ (Rose (K.faults sink.old) (K.faults sink.new))
        → IsTrue (is_answered result) ⊎ (result ≡ 6) }

    // Whatever the status: what is read, in how many reads, and what only rises.
    ensures read { (input : List ℕ) × HasRead (S.left source.old) (S.left source.new) input }
    ensures reads { S.reads source.new ≤ S.reads source.old + 16_777_217 }
    ensures faults { (S.faults source.old ≤ S.faults source.new) × (K.faults sink.old ≤ K.faults sink.new) }
    ensures steps { steps.old ≤ steps.new }
{
    match output(alloc, rt, words, source, gate, steps) {
        Ok(output) => match write_output(sink, output.bytes()) {
            Ok(()) => output.status().number(),
            Err(_) => ExitStatus::WriteFailed.number(),
        },
        Err(InputError::Failed) => ExitStatus::ReadFailed.number(),
        Err(InputError::OutOfMemory) => ExitStatus::OutOfMemory.number(),
    }
}

/// The same with a counter that is made for this call.
fn counted<R: Threads + Wait + Sync, S: Source, K: Sink, G: Gate, L: Ledger>(
    rt: &R,
    alloc: Global,
    words: &[String],
    source: &mut S,
    sink: &mut K,
    gate: &G,
    blank: Blank,
) -> u8
    requires name { blank.name ≡ L.name }
    requires parts { blank.parts ≡ L.parts }
    requires some { 0 < L.parts }
    ensures promised { DoesAsPromised
        (source_of S.left S.reads S.faults source.old source.new)
        (sink_of K.written K.pieces K.faults sink.old sink.new)
        (invocation_of (texts_of words.now)) result }
{
    let mut steps = Steps::<L>::open(blank);
    aerie(rt, alloc, words, source, sink, gate, &mut steps)
}

/// The program with a counter of statements that nobody else reads. It promises what `aerie` does, but for the counter.
pub fn with_own_counter<R: Threads + Wait + Sync, S: Source, K: Sink, G: Gate>(
    rt: &R,
    alloc: Global,
    words: &[String],
    source: &mut S,
    sink: &mut K,
    gate: &G,
) -> u8
    ensures promised { DoesAsPromised
        (source_of S.left S.reads S.faults source.old source.new)
        (sink_of K.written K.pieces K.faults sink.old sink.new)
        (invocation_of (texts_of words.now)) result }
{
    counted::<R, S, K, G, Brand>(rt, alloc, words, source, sink, gate, Blank::new(1))
}
