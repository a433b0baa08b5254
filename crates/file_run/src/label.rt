// The label of an entry as a report shows it.
ghost use Rattle.std.specs.Prelude.{◌≡◌, true};
ghost use Rattle.std.specs.List.{list_all};
ghost use Rattle.event_file.specs.Format.{printable};
ghost use Rattle.file_run.specs.Reports.{without_end_blanks};

use event_file::label::printed;

// The text of a label without its end blanks, lent by the block it stands in.
pub(crate) fn label_text(label: &[u8]) -> &str
    ensures value { list_all printable label.now ≡ true →
        result.now ≡ without_end_blanks label.now }
{
    printed(label).trim_end_matches(' ')
}
