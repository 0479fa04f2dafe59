//! The lines that are written: refusals, warnings with their reasons, and the last line of a report.
ghost use Rattle.std.specs.Prelude.{◌≡◌, ◌++◌, List, IfOk, OnOk, codes};
ghost use Rattle.std.specs.Option.{option_copied};
ghost use Rattle.sb_top.specs.Texts as text;

use sb_base::{Files, Names, Refusal};
use sb_picture::{Label, Part};
use sb_store::Warning;
use sb_term::{Answer, Rat, Sym};
use sqlite_items::Items;
use std::alloc::{AllocError, Global};

/// The line that is written where the words are no command.
pub(crate) const USAGE: &str = "usage: prefast COMMAND ARGUMENT...\n";

/// The name of the file that has a number.
fn file_name(files: &Files, file: u32) -> &[u8]
    ensures { result.now ≡ text.file_name files.now file }
{
    match files.name(file) {
        Some(name) => name,
        None => b"".as_slice(),
    }
}

/// What a number refuses.
fn refused_for(number: u16) -> &'static str
    ensures { result.now ≡ text.refused_for number }
{
    match number {
        1 => "comment not closed",
        2 => "literal not closed",
        3 => "bad byte",
        4 => "bad number",
        5 => "too many pieces in a file",
        11 => "bad definition",
        12 => "macro redefined",
        13 => "argument count",
        14 => "macro call not closed",
        15 => "outside the preprocessor profile",
        16 => "too many tokens",
        21 => "no such file",
        22 => "file too long",
        23 => "includes too deep",
        24 => "bad directive",
        25 => "conditionals not balanced",
        26 => "bad condition",
        27 => "error directive",
        28 => "too many names",
        31 => "unexpected token",
        32 => "too deep",
        35 => "bad annotation",
        36 => "unknown annotation",
        37 => "annotation place",
        38 => "too many parameters",
        _ => "outside the profile",
    }
}

/// A feature that is left out.
fn left_out(feature: u16) -> &'static str
    ensures { result.now ≡ text.left_out feature }
{
    match feature {
        1 => "floating type",
        2 => "union",
        3 => "bit field",
        4 => "function pointer",
        5 => "variable length array",
        6 => "variable arguments",
        7 => "volatile",
        8 => "complex",
        9 => "old definition",
        10 => "backward goto",
        11 => "goto into a block",
        12 => "pointer cast",
        13 => "pointer and number cast",
        14 => "struct by value",
        15 => "designated initialiser",
        16 => "compound literal",
        _ => "not built yet",
    }
}

/// Appends the feature that a refusal names, if it names one.
fn append_detail(out: &mut Vec<u8>, refused: Refusal) -> Result<(), AllocError>
    ensures { OnOk result (out.new.items ≡ out.old.items ++ text.detail refused) }
{
    if refused.number == 33 {
        out.extend_from_slice(b": ")?;
        out.extend_from_slice(left_out(refused.feature).as_bytes())?;
    }
    Ok(())
}

/// The line of a refusal.
pub(crate) fn refusal(alloc: Global, files: &Files, refused: Refusal) -> Result<Vec<u8>, AllocError>
    ensures { IfOk result (λ line. line.items ≡ text.refusal files.now refused) }
{
    let Refusal { number, place, .. } = refused;
    let mut line = Vec::from_slice(alloc, file_name(files, place.file))?;
    let what = refused_for(number);
    let rest = format!(in alloc; ":{}:{}: refused {number}: {what}", place.line, place.col)?;
    line.extend_from_slice(rest.as_bytes())?;
    append_detail(&mut line, refused)?;
    line.extend_from_slice(b"\n")?;
    Ok(line)
}

fn ending_of(part: Part) -> &'static str
    ensures { result.now ≡ text.ending_of part }
{
    match part {
        Part::Number => "",
        Part::Present => ".present",
        Part::Extent => ".extent",
        Part::Written => ".written",
    }
}

/// Appends the spelling of a symbol's label.
fn append_label(out: &mut Vec<u8>, names: &Names, held: Option<&Label>) -> Result<(), AllocError>
    ensures { OnOk result
        (out.new.items ≡ out.old.items ++ text.label names.now.texts (option_copied held.entry)) }
{
    let Some(label) = held else {
        return out.extend_from_slice(b"v");
    };
    match names.text(label.name) {
        Some(name) => {
            out.extend_from_slice(name)?;
            out.extend_from_slice(ending_of(label.part).as_bytes())
        }
        None => out.extend_from_slice(b"v"),
    }
}

/// Appends a whole number, or A/B in lowest terms.
fn append_ratio(alloc: Global, out: &mut Vec<u8>, value: &Rat) -> Result<(), AllocError>
    ensures { OnOk result (out.new.items ≡ out.old.items ++ text.ratio value.now) }
{
    let (above, below) = (value.numerator(), value.denominator());
    let written = if below == 1 {
        format!(in alloc; "{above}")?
    } else {
        format!(in alloc; "{above}/{below}")?
    };
    out.extend_from_slice(written.as_bytes())
}

/// Appends a symbol with its value.
fn append_assigned(
    alloc: Global,
    out: &mut Vec<u8>,
    names: &Names,
    labels: &Items<Label>,
    entry: &(Sym, Rat),
) -> Result<(), AllocError>
    ensures { OnOk result
        (out.new.items ≡ out.old.items ++ text.assigned names.now.texts labels.now entry.now) }
{
    let (Sym(number), value) = entry;
    append_label(out, names, labels.get(*number as usize))?;
    let middle = format!(in alloc; ".{number}=")?;
    out.extend_from_slice(middle.as_bytes())?;
    append_ratio(alloc, out, value)
}

/// Appends the symbols of a query with their values, joined by one space.
fn append_assignment(
    alloc: Global,
    out: &mut Vec<u8>,
    names: &Names,
    labels: &Items<Label>,
    entries: &[(Sym, Rat)],
) -> Result<(), AllocError>
    ensures { OnOk result
        (out.new.items ≡ out.old.items ++ text.assignment names.now.texts labels.now entries.now) }
{
    let Some((first, more)) = entries.split_first() else {
        return out.extend_from_slice(b"-");
    };
    append_assigned(alloc, out, names, labels, first)?;
    for entry in more {
        out.extend_from_slice(b" ")?;
        append_assigned(alloc, out, names, labels, entry)?;
    }
    Ok(())
}

/// Appends the second line of a warning.
fn append_reason(
    alloc: Global,
    out: &mut Vec<u8>,
    names: &Names,
    labels: &Items<Label>,
    answer: &Answer,
) -> Result<(), AllocError>
    ensures { OnOk result
        (out.new.items ≡ out.old.items ++ text.reason names.now.texts labels.now answer.now) }
{
    match answer {
        Answer::Proved(_) => Ok(()),
        Answer::Refuted(assignment) => {
            out.extend_from_slice(b"  refuted by ")?;
            append_assignment(alloc, out, names, labels, assignment.list.as_slice())?;
            out.extend_from_slice(b"\n")
        }
        Answer::LimitRows => out.extend_from_slice(b"  limit: rows\n"),
        Answer::LimitDigits => out.extend_from_slice(b"  limit: digits\n"),
    }
}

/// Appends the lines of a warning.
fn append_warning(
    alloc: Global,
    out: &mut Vec<u8>,
    files: &Files,
    names: &Names,
    warning: &Warning,
) -> Result<(), AllocError>
    ensures { OnOk result
        (out.new.items ≡ out.old.items ++ text.warning files.now names.now.texts warning.now) }
{
    let (place, need) = (warning.place, warning.need);
    let (number, what) = (need.number(), need.text());
    out.extend_from_slice(file_name(files, place.file))?;
    let rest = format!(in alloc; ":{}:{}: warning {number}: {what}\n", place.line, place.col)?;
    out.extend_from_slice(rest.as_bytes())?;
    append_reason(alloc, out, names, &warning.labels, &warning.answer)
}

/// Appends the warnings of a function.
fn append_warnings(
    alloc: Global,
    out: &mut Vec<u8>,
    files: &Files,
    names: &Names,
    warnings: &[Warning],
) -> Result<(), AllocError>
    ensures { OnOk result
        (out.new.items ≡ out.old.items ++ text.warnings files.now names.now.texts warnings.now) }
{
    for warning in warnings {
        append_warning(alloc, out, files, names, warning)?;
    }
    Ok(())
}

/// How many warnings stand in a report.
pub(crate) fn count_of(reports: &[Items<Warning>]) -> u128
    ensures { result ≡ text.count_of reports.now }
{
    let mut count = 0;
    for report in reports {
        count += report.len() as u128;
    }
    count
}

/// The report: the warnings of each function, and a last line with the counts.
pub(crate) fn report_text(
    alloc: Global,
    files: &Files,
    names: &Names,
    reports: &[Items<Warning>],
) -> Result<Vec<u8>, AllocError>
    ensures { IfOk result
        (λ bytes. bytes.items ≡ text.report_text files.now names.now.texts reports.now) }
{
    let mut out = Vec::new(alloc);
    for report in reports {
        append_warnings(alloc, &mut out, files, names, report.as_slice())?;
    }
    let (warnings, functions) = (count_of(reports), reports.len());
    let last = format!(in alloc; "{warnings} warnings in {functions} functions\n")?;
    out.extend_from_slice(last.as_bytes())?;
    Ok(out)
}
