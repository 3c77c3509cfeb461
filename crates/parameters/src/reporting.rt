ghost use Rattle.std.specs.Prelude.{◌≡◌, List, [], ◌∷◌, ◌++◌, IfOk, OnOk};
ghost use Rattle.datatypes.specs.Meaning.{Bytes};
ghost use Rattle.parameters.specs.Held.{IsReportOn};
ghost use Rattle.parameters.specs.Lines.{lines_of, without_newline};
ghost use Rattle.parameters.specs.Report.{lines_text, summary, reported};
ghost use Rattle.parameters.specs.Tally.{HasRoom};

use crate::finding::Finding;
use crate::tally::Tally;
use std::alloc::{AllocError, Global};

/// The report on a file of parameters: what is found of each line, and a summary.
pub fn report(heap: Global, file: &[u8]) -> Result<Vec<u8>, AllocError>
    ensures { IfOk result (λ v. v.items ≡ reported file.now) }
{
    write_lines(heap, file)?.finish()
}

// Writes what is found of each line.
fn write_lines(heap: Global, file: &[u8]) -> Result<ReportWriter, AllocError>
    ensures { IfOk result (λ w. IsReportOn (lines_of file.now) w) }
{
    let mut writer = ReportWriter::new(heap);
    for line in file.split_inclusive(|b| *b == b'\n') {
        writer.add_line(trim_newline(line))?;
    }
    Ok(writer)
}

// A line without the newline that ends it, if there is one.
fn trim_newline(line: &[u8]) -> &[u8]
    ensures { result.now ≡ without_newline line.now }
{
    line.strip_suffix(b"\n").unwrap_or(line)
}

// A report that is being written: the text on the lines so far, and their tally.
#[derive(Drop)]
struct ReportWriter {
    text: Vec<u8>,
    tally: Tally,
}

impl ReportWriter {
    fn new(heap: Global) -> Self
        ensures { IsReportOn [] result }
    {
        ReportWriter {
            text: Vec::new(heap),
            tally: Tally::default(),
        }
    }

    // Writes what is found of one line more, and counts it.
    fn add_line(&mut self, line: &[u8]) -> Result<(), AllocError>
        requires { HasRoom self.old.tally }
        ensures { (ls : List Bytes) → IsReportOn ls self.old → OnOk result (IsReportOn (ls ++ line.now ∷ []) self.new) }
    {
        let finding = Finding::of(line);
        self.tally.count(finding.comparison());
        let start = format!(in *self.text.allocator(); "line {}: ", self.tally.lines)?;
        self.text.extend_from_slice(start.as_bytes())?;
        finding.write_to(&mut self.text)?;
        self.text.push(b'\n')?;
        Ok(())
    }

    // Writes the summary, which ends the report.
    fn finish(mut self) -> Result<Vec<u8>, AllocError>
        ensures { (ls : List Bytes) → IsReportOn ls self → IfOk result (λ v. v.items ≡ lines_text 1 ls ++ summary ls) }
    {
        let end = format!(in *self.text.allocator(); "{}\n", self.tally)?;
        self.text.extend_from_slice(end.as_bytes())?;
        Ok(self.text)
    }
}
