// A label as text for people.
ghost use Rattle.std.specs.Prelude.{◌≡◌, [], if◌then◌else◌};
ghost use Rattle.std.specs.List.{list_all};
ghost use Rattle.event_file.specs.Format.{printable};

use crate::entry::all_print;
use std::str::from_utf8;

/// Bytes as text if each of them prints, as those of every label that is read do; else no text.
pub fn printed(bytes: &[u8]) -> &str
    ensures value { result.now ≡ (if list_all printable bytes.now then bytes.now else []) }
{
    match from_utf8(bytes) {
        Ok(text) if all_print(bytes) => text,
        _ => "",
    }
}
