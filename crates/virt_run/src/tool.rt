//! What the words name, and which jobs are served.
ghost use Rattle.std.specs.Prelude.{◌≡◌, map, codes, string_bytes};
ghost use Rattle.std.specs.Str.{bytes_eq};
ghost use Rattle.virt_run.specs.Words.{is_served, tool_named, word_at};
ghost use Rattle.virt_run.specs.Lines.{tool_text};

use words::ResizeJob;

/// What the first word names.
#[derive(Clone, Copy, Debug, PartialEq, Eq)]
pub enum Tool {
    Resize,
    Sparsify,
    /// No tool.
    Unnamed,
}

/// Whether a job is served: it expands no logical volume.
pub fn is_served(job: &ResizeJob) -> bool
    ensures { result ≡ is_served job.now }
{
    job.lvs.items().is_empty()
}

// The first word, or nothing.
fn first_word(words: &[String]) -> &str
    ensures { result.now ≡ word_at (map string_bytes words.now) 0 }
{
    if words.is_empty() {
        return "";
    }
    words[0].as_str()
}

/// The tool that the first word names.
pub fn tool_of(words: &[String]) -> Tool
    ensures { result ≡ tool_named (map string_bytes words.now) }
{
    let word = first_word(words);
    if word == "virt-resize" {
        Tool::Resize
    } else if word == "virt-sparsify" {
        Tool::Sparsify
    } else {
        Tool::Unnamed
    }
}

/// What a tool calls itself.
pub fn tool_text(tool: Tool) -> &'static str
    ensures { result.now ≡ tool_text tool }
{
    match tool {
        Tool::Resize => "virt-resize",
        Tool::Sparsify => "virt-sparsify",
        Tool::Unnamed => "virt",
    }
}
