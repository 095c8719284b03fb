//! Remarks on messages, printed.

ghost use Rattle.std.specs.Prelude.{◌≡◌, ◌++◌, IfOk, map, string_bytes};
ghost use Rattle.per_messages.specs.Remarks.{told};
ghost use Rattle.message_lines.specs.Remarks.{at_path, IsJsonWith, remark_line, remark_lines};

use line_replies::layout::{Layout, laid_out};
use per_messages::calls::Checked;
use per_messages::remarks::{Remark, RemarkKind};
use std::alloc::{AllocError, Global};

/// The JSON of a message in a layout, and after it a line for each remark, with a line feed at its front.
pub(crate) fn with_remarks(
    alloc: Global,
    layout: Layout,
    checked: Checked,
) -> Result<Vec<u8>, AllocError>
    ensures { IfOk result (λ text. IsJsonWith layout checked.json.items (map told checked.remarks.items) text.items) }
{
    let remarks = checked.remarks;
    let mut text = laid_out(alloc, layout, checked.json)?;
    let lines = remark_lines(alloc, remarks.as_slice())?;
    text.extend_from_slice(lines.as_slice())?;
    Ok(text)
}

/// A line for each remark, with a line feed at its front.
fn remark_lines(alloc: Global, remarks: &[Remark]) -> Result<Vec<u8>, AllocError>
    ensures { IfOk result (λ lines. lines.items ≡ remark_lines (map told remarks.now)) }
{
    let mut lines = Vec::new(alloc);
    for remark in remarks {
        let line = remark_line(alloc, remark)?;
        lines.extend_from_slice(line.as_bytes())?;
    }
    Ok(lines)
}

/// A remark on a line, with a line feed at its front, such as `# mandatory NAS-PDU lacks at protocolIEs`.
fn remark_line(alloc: Global, remark: &Remark) -> Result<String, AllocError>
    ensures { IfOk result (λ line. string_bytes line ≡ remark_line (told remark.now)) }
{
    let name = remark.name.as_str();
    let place = at_path(alloc, remark.path.as_str())?;
    match remark.kind {
        RemarkKind::Missing => format!(in alloc; "\n# mandatory {name} lacks{place}"),
        RemarkKind::Repeated => format!(in alloc; "\n# {name} twice{place}"),
        RemarkKind::Criticality => format!(in alloc;
            "\n# criticality of {name} isn't its set's{place}"
        ),
    }
}

/// Where a path leads, where it isn't empty.
fn at_path(alloc: Global, path: &str) -> Result<String, AllocError>
    ensures { IfOk result (λ text. string_bytes text ≡ at_path path.now) }
{
    if path.is_empty() {
        return Ok(String::new(alloc));
    }
    format!(in alloc; " at {path}")
}
