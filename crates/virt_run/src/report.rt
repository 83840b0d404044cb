//! Telling on standard error how a run ended.
ghost use Rattle.std.specs.Prelude.{◌≡◌, ◌+◌, ◌≤◌, ◌++◌, ◌⊎◌, IsTrue, IfOk, length, string_bytes, List, ℕ};
ghost use Rattle.run_end.specs.Ending.{IsToldFor};
ghost use Rattle.virt_run.specs.Lines.{TellsEnd, failing_text, refusal_text, tool_text};
ghost use Rattle.virt_run.specs.inside.Acts.{SaysOn};

use crate::tool::{Tool, tool_text};
use arrayvec::ArrayString;
use disk_base::{DeviceFault, Sink};
use run_end::{End, Failing, Refusal};
use std::alloc::{AllocError, Global};

// Writes a line; where standard error fails nothing more can be done.
fn say<E: Sink>(err: &mut E, line: &[u8])
    ensures { SaysOn E.Sink err.old err.new line.now }
{
    let _ = err.write(line);
}

// A short line, which takes no memory.
fn short_line(tool: &str, text: &str) -> ArrayString<64>
    requires { length tool.now + length text.now ≤ 64 }
    ensures { result.bytes ≡ tool.now ++ text.now }
{
    let mut line = ArrayString::new();
    let _ = line.try_push_str(tool);
    let _ = line.try_push_str(text);
    line
}

// Tells a short line.
fn say_short<E: Sink>(tool: Tool, text: &str, err: &mut E)
    requires { length text.now ≤ 32 }
    ensures { SaysOn E.Sink err.old err.new (tool_text tool ++ text.now) }
{
    say(err, short_line(tool_text(tool), text).as_bytes());
}

// The text of a refusal.
fn refusal_text(alloc: Global, refusal: Refusal) -> Result<String, AllocError>
    ensures { IfOk result (λ text. string_bytes text ≡ refusal_text refusal) }
{
    match refusal {
        Refusal::Usage(usage) => format!(in alloc; ": usage: {usage}\n"),
        Refusal::NotYet => String::from_str(alloc, ": not yet\n"),
        Refusal::Source(fault) => format!(in alloc; ": source: {fault}\n"),
        Refusal::Plan(fault) => format!(in alloc; ": no plan: {fault}\n"),
        Refusal::Memory => String::from_str(alloc, ": memory\n"),
    }
}

// The text of a failure.
fn failing_text(failing: Failing) -> &'static str
    ensures text { result.now ≡ failing_text failing }
    ensures short { length result.now ≤ 32 }
{
    match failing {
        Failing::Device(DeviceFault::Source) => ": source device\n",
        Failing::Device(DeviceFault::Target) => ": target device\n",
        Failing::Printing => ": printing\n",
    }
}

// The line of a refusal.
fn refusal_line(alloc: Global, tool: Tool, refusal: Refusal) -> Result<String, AllocError>
    ensures { IfOk result (λ text. string_bytes text ≡ tool_text tool ++ refusal_text refusal) }
{
    let mut line = String::from_str(alloc, tool_text(tool))?;
    line.push_str(refusal_text(alloc, refusal)?.as_str())?;
    Ok(line)
}

// Tells a refusal, and gives what was told: want of memory where its line took more than there was.
fn report_refusal<E: Sink>(alloc: Global, tool: Tool, refusal: Refusal, err: &mut E) -> Refusal
    ensures told { (result ≡ refusal) ⊎ (result ≡ Refusal.Memory) }
    ensures line { SaysOn E.Sink err.old err.new (tool_text tool ++ refusal_text result) }
{
    match refusal_line(alloc, tool, refusal) {
        Ok(line) => {
            say(err, line.as_bytes());
            refusal
        }
        Err(_) => {
            say_short(tool, ": memory\n", err);
            Refusal::Memory
        }
    }
}

/// Tells how a run ended, and gives what was told: want of memory where the line of a refusal took more than
/// there was. Nothing is told of what is done.
pub fn report<E: Sink>(alloc: Global, tool: Tool, end: End, err: &mut E) -> End
    ensures told { IsToldFor end result }
    ensures line { TellsEnd tool E.Sink err.old err.new result }
{
    match end {
        End::Done => end,
        End::Refused(refusal) => End::Refused(report_refusal(alloc, tool, refusal, err)),
        End::Failed(failing) => {
            say_short(tool, failing_text(failing), err);
            end
        }
    }
}
