//! The tools and their options.
ghost use Rattle.std.specs.Prelude.{◌≡◌, if◌then◌else◌};
ghost use Rattle.std.specs.Str.{bytes_eq};
ghost use Rattle.words.specs.Options.{named_in, option_named, resize_options, same_option, sparsify_options, tool_of};

/// The tools, by the first word.
#[derive(Clone, Copy, Debug, PartialEq, Eq)]
pub enum Tool {
    VirtResize,
    VirtSparsify,
}

/// An option, whichever of its names was written.
#[derive(Clone, Copy, Debug, PartialEq, Eq)]
pub enum Choice {
    Expand,
    Shrink,
    Resize,
    ResizeForce,
    Delete,
    Ignore,
    LvExpand,
    Alignment,
    AlignFirst,
    UnknownFilesystems,
    Format,
    OutputFormat,
    NoExtraPartition,
    NoCopyBootLoader,
    NoExpandContent,
    NoSparse,
    DryRun,
    Quiet,
    IgnoreVolume,
    ZeroVolume,
    InPlace,
    Convert,
}

/// Whether an option takes a value, and how often it may come.
#[derive(Clone, Copy, Debug, PartialEq, Eq)]
pub enum Kind {
    /// It takes no value, and may be repeated.
    Flag,
    /// It takes a value, and comes once.
    Once,
    /// It takes a value each time.
    Many,
}

/// An option and its kind.
#[derive(Clone, Copy, Debug, PartialEq, Eq)]
pub struct Known {
    pub option: Choice,
    pub kind: Kind,
}

/// The row of a table where `name` is its text, else what the rows below it gave.
fn row_or(
    found: Option<Known>,
    name: &[u8],
    text: &[u8],
    option: Choice,
    kind: Kind,
) -> Option<Known>
    ensures { result ≡ (if bytes_eq name.now text.now then Some (record { option = option; kind = kind }) else found) }
{
    if name == text {
        Some(Known { option, kind })
    } else {
        found
    }
}

/// The tool that the first word names.
pub fn named_tool(word: &[u8]) -> Option<Tool>
    ensures { result ≡ tool_of word.now }
{
    if word == b"virt-resize".as_slice() {
        Some(Tool::VirtResize)
    } else if word == b"virt-sparsify".as_slice() {
        Some(Tool::VirtSparsify)
    } else {
        None
    }
}

// An option without a value.
fn flag(found: Option<Known>, name: &[u8], text: &[u8], option: Choice) -> Option<Known>
    ensures { result ≡ (if bytes_eq name.now text.now then Some (record { option = option; kind = Kind.Flag }) else found) }
{
    row_or(found, name, text, option, Kind::Flag)
}

// An option that may come once.
fn once(found: Option<Known>, name: &[u8], text: &[u8], option: Choice) -> Option<Known>
    ensures { result ≡ (if bytes_eq name.now text.now then Some (record { option = option; kind = Kind.Once }) else found) }
{
    row_or(found, name, text, option, Kind::Once)
}

// An option that may come many times.
fn many(found: Option<Known>, name: &[u8], text: &[u8], option: Choice) -> Option<Known>
    ensures { result ≡ (if bytes_eq name.now text.now then Some (record { option = option; kind = Kind.Many }) else found) }
{
    row_or(found, name, text, option, Kind::Many)
}

fn resize_option(name: &[u8]) -> Option<Known>
    ensures { result ≡ named_in resize_options name.now }
{
    let found = flag(None, name, b"--quiet", Choice::Quiet);
    let found = flag(found, name, b"-q", Choice::Quiet);
    let found = flag(found, name, b"--dry-run", Choice::DryRun);
    let found = flag(found, name, b"--dryrun", Choice::DryRun);
    let found = flag(found, name, b"-n", Choice::DryRun);
    let found = flag(found, name, b"--no-sparse", Choice::NoSparse);
    let found = flag(found, name, b"--no-expand-content", Choice::NoExpandContent);
    let found = flag(
        found,
        name,
        b"--no-copy-boot-loader",
        Choice::NoCopyBootLoader,
    );
    let found = flag(
        found,
        name,
        b"--no-extra-partition",
        Choice::NoExtraPartition,
    );
    let found = once(found, name, b"--output-format", Choice::OutputFormat);
    let found = once(found, name, b"--format", Choice::Format);
    let found = once(
        found,
        name,
        b"--unknown-filesystems",
        Choice::UnknownFilesystems,
    );
    let found = once(found, name, b"--align-first", Choice::AlignFirst);
    let found = once(found, name, b"--alignment", Choice::Alignment);
    let found = many(found, name, b"--LV-expand", Choice::LvExpand);
    let found = many(found, name, b"--lv-expand", Choice::LvExpand);
    let found = many(found, name, b"--ignore", Choice::Ignore);
    let found = many(found, name, b"--delete", Choice::Delete);
    let found = many(found, name, b"--resize-force", Choice::ResizeForce);
    let found = many(found, name, b"--resize", Choice::Resize);
    let found = once(found, name, b"--shrink", Choice::Shrink);
    let found = once(found, name, b"--expand", Choice::Expand);
    found
}

fn sparsify_option(name: &[u8]) -> Option<Known>
    ensures { result ≡ named_in sparsify_options name.now }
{
    let found = flag(None, name, b"--quiet", Choice::Quiet);
    let found = flag(found, name, b"-q", Choice::Quiet);
    let found = once(found, name, b"--convert", Choice::Convert);
    let found = once(found, name, b"--format", Choice::Format);
    let found = flag(found, name, b"--in-place", Choice::InPlace);
    let found = many(found, name, b"--zero", Choice::ZeroVolume);
    let found = many(found, name, b"--ignore", Choice::IgnoreVolume);
    found
}

/// The option that a tool knows by this name.
#[tactic(auto, unfolding(crate::specs::Options::option_named))]
pub fn find_option(tool: Tool, name: &[u8]) -> Option<Known>
    ensures { result ≡ option_named tool name.now }
{
    match tool {
        Tool::VirtResize => resize_option(name),
        Tool::VirtSparsify => sparsify_option(name),
    }
}

/// Whether two options are one.
pub fn is_same_option(one: Choice, other: Choice) -> bool
    ensures { result ≡ same_option one other }
{
    one == other
}
