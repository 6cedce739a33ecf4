// A finished value leaves its room: laid into the sheet, the records into the unused rest of a buffer and the texts into the text part; or
// kept in the job's bytes, from where it can be copied.
// Computes: Sheet
ghost use Rattle.std.specs.Prelude.{◌+◌};
ghost use Rattle.eval_store.specs.Values.Contracts.{LayAsked, LaidIs, KeepAsked, KeepIs};

use codes::limits;
use eval_writer::{Out, Source, fill};
use sheet_layout::{keep_records, lay_records};
use text_chars::{RecAt, RecLen, TextAt};

/// Lays the value in the room: its records at the beginning of a part, its texts into the text part from t on.
pub fn lay_value(room: &[u8], o: Out, t: TextAt, part: &mut [u8], text: &mut [u8])
    requires { LayAsked room.now o t.0 part.old text.old }
    ensures { LaidIs room.now o t.0 part.old part.new text.old text.new }
{
    let rec = o.rec;
    let end = o.text;
    lay_records(room, RecLen(rec.0), t, part);
    fill(text, t.0, room, limits::RECORDS, end.0);
}

/// Keeps the value in the room: its record is at an offset of the source's records, its texts are from t on.
pub fn keep_value(bytes: &mut [u8], room: &[u8], src: Source, at: RecAt, t: TextAt, o: Out)
    requires { KeepAsked bytes.old room.now (src.rec.0 + at.0) src.text.0 t.0 o }
    ensures { KeepIs room.now o (src.rec.0 + at.0) src.text.0 t.0 bytes.old bytes.new }
{
    let base = src.rec;
    let texts = src.text;
    let rec = o.rec;
    let end = o.text;
    let p = base.0 + at.0;
    keep_records(room, RecLen(rec.0), t, &mut bytes[p..]);
    fill(bytes, texts.0 + t.0, room, limits::RECORDS, end.0);
}
