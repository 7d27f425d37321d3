// The text of a station.
ghost use Rattle.transcript.specs.Printing.{Wrote};
ghost use Rattle.transcript.specs.Stations.{station_in};
ghost use Rattle.transcript.specs.Transcript.{sheet_line, station_text};

use crate::line::{put_end, put_failure};
use crate::{Sink, Station};
use memory::Model;
use verifier::Verdict;

impl Station<'_> {
    // The line of the check; a sheet of no entries is not checked.
    fn put_sheet(&self, sink: &mut Sink)
        ensures { Wrote 19 (sheet_line (station_in self.now)) sink.old sink.new }
    {
        sink.put(b"SHEET ");
        if self.sheet.is_empty() {
            return sink.put(b"NONE\n");
        }
        match verifier::verify(Model::Upd17132, self.rom, self.sheet) {
            Ok(Verdict::Pass) => sink.put(b"PASS\n"),
            Ok(Verdict::Fail { word, rule }) => put_failure(sink, word, rule),
            Err(_) => sink.put(b"NONE\n"),
        }
    }

    // The whole text.
    pub(crate) fn put_text(&self, sink: &mut Sink)
        ensures { Wrote 100000 (station_text (station_in self.now)) sink.old sink.new }
    {
        self.put_sheet(sink);
        let progress = self.put_records(sink);
        put_end(sink, progress.count, progress.refusal);
    }
}
