ghost use Rattle.std.specs.Prelude.{◌≡◌, ◌∷◌, ◌++◌, ◌↔◌, [], IsTrue, IfOk, OnOk};
ghost use Rattle.std.specs.List.{flat_map};
ghost use Rattle.eager_report.specs.Report.{findings, line_of, report_bytes};

use ruby_types::{Text, TextList};
use std::alloc::{AllocError, Global};

/// What a check reports.
#[derive(Drop)]
pub struct Report {
    /// What was logged when files were loaded, in that order.
    pub logs: TextList,
    /// A line for each failure, without its end.
    pub lines: TextList,
}

fn push_line(bytes: &mut Vec<u8>, text: &Text) -> Result<(), AllocError>
    ensures { OnOk result (bytes.new.items ≡ bytes.old.items ++ line_of text.now) }
{
    bytes.extend_from_slice(text.as_bytes())?;
    bytes.push(b'\n')?;
    Ok(())
}

fn push_lines(bytes: &mut Vec<u8>, texts: &[Text]) -> Result<(), AllocError>
    ensures { OnOk result (bytes.new.items ≡ bytes.old.items ++ flat_map line_of texts.now) }
{
    'texts: for text in texts {
        push_line(bytes, text)?;
    }
    Ok(())
}

fn push_findings(bytes: &mut Vec<u8>, lines: &TextList) -> Result<(), AllocError>
    ensures { OnOk result (bytes.new.items ≡ bytes.old.items ++ flat_map line_of (findings lines.now)) }
{
    match lines.as_slice() {
        [] => bytes.extend_from_slice(b"All is good!\n"),
        lines => push_lines(bytes, lines),
    }
}

impl Report {
    /// Whether nothing failed.
    pub fn is_good(&self) -> bool
        ensures { IsTrue result ↔ (self.now.lines ≡ []) }
    {
        self.lines.is_empty()
    }

    /// The printed report: what was logged, and then the failures or that all is good. An error where memory runs out.
    pub fn bytes(&self, alloc: Global) -> Result<Vec<u8>, AllocError>
        ensures { IfOk result (λ bytes. bytes.items ≡ report_bytes self.now) }
    {
        let mut bytes = Vec::new(alloc);
        push_lines(&mut bytes, self.logs.as_slice())?;
        push_findings(&mut bytes, &self.lines)?;
        Ok(bytes)
    }
}
