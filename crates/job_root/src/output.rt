// The end of resolve: the root's value, tested and laid into the table behind the trail that was laid.
// Computes: Jobs (handed_back)
ghost use Rattle.std.specs.Prelude.{◌≤◌};
ghost use Rattle.rules.specs.Sizes.{max_room};
ghost use Rattle.job_root.specs.Output.Contracts.{JudgeIs, HandAsked, HandIs};

use codes::refusals;
use eval_results::extents::Extent;
use eval_trail::Progress;
use job_results::Resolution;
use sheet_sizes::Sizes;
use text_chars::{DocAt, RecLen, Refusal, TextAt, TextLen};

// The tests of the table, in their order: its size, 13, then its room and what the trail's texts leave of the text part, 14.
fn judge_table(e: Extent, texts: TextAt, room: Sizes) -> Result<(), Refusal>
    requires { texts.0 ≤ max_room }
    ensures { JudgeIs e texts.0 room result }
{
    if eval_results::sizes::is_within(e) {
        let size = Sizes {
            rec: RecLen(e.out.rec.0),
            text: TextLen(e.out.text.0),
        };
        if sheet_sizes::table_fits(room, TextLen(texts.0), size) {
            return Ok(());
        }
        return Err(Refusal {
            number: refusals::NO_ROOM,
            place: DocAt(0),
        });
    }
    Err(Refusal {
        number: refusals::TOO_LARGE,
        place: DocAt(0),
    })
}

/// Hands back: the table and the end of the text part are written, or 13 or 14 is the answer.
pub fn hand_back(
    room: &[u8],
    e: Extent,
    at: Progress,
    table: &mut [u8],
    text: &mut [u8],
) -> Result<Resolution, Refusal>
    requires { HandAsked room.now at }
    ensures { HandIs room.now e at table.old table.new text.old text.new result }
{
    let room_left = Sizes {
        rec: RecLen(table.len()),
        text: TextLen(text.len()),
    };
    judge_table(e, at.text, room_left)?;
    eval_store::values::lay_value(room, e.out, at.text, table, text);
    Ok(Resolution {
        count: at.begun,
        trail: RecLen(at.used.0),
        table: RecLen(e.out.rec.0),
        text: TextLen(at.text.0 + e.out.text.0),
    })
}
