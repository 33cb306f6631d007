//! Printing what a server has read.
ghost use Rattle.std.specs.Prelude.{◌≡◌};
ghost use Rattle.wl_trace_line.specs.Report.{shown_line};
ghost use Rattle.wl_server.specs.Shown.{request_text};

use crate::report::RequestWithEntry;
use wl_sigs::{Side, Tables};
use wl_trace_line::{MessageHead, ReportLine};

impl<'a> RequestWithEntry<'a> {
    /// The report, for printing: `{}` prints it as the line of its message in a trace, as far as
    /// the report has what the line shows.
    pub fn shown<'t>(&self, tables: &'t Tables) -> ReportLine<'t, 'a>
        ensures { shown_line result ≡ request_text tables.now self.now }
    {
        ReportLine {
            head: MessageHead {
                tables,
                side: Side::Request,
                target: self.request.target.id,
                entry: Some(self.entry),
                opcode: self.request.opcode,
            },
            args: self.request.args,
        }
    }
}
