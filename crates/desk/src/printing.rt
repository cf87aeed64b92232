// What the desk program prints of an answer (01, "The program").
mod first;
mod kept;

ghost use Rattle.std.specs.Prelude.{◌+◌, ◌*◌, length};
ghost use Rattle.runs.specs.Lists.{listed};
ghost use Rattle.desk.specs.Puts.{Room, Puts};
ghost use Rattle.desk.specs.Lines.{told, lines_told};

pub use crate::printing::first::put_refusal;
use crate::printing::first::put_stop;
use crate::printing::kept::put_records;
use crate::text::Text;
use runs::runs::Stop;
use system::refusal::Refused;

// A number of the list has at most 5 digits, so that a record's line has at most 42 bytes.
pub fn put_answer(text: &mut Text<'_>, a: Result<Stop, Refused>, list: &[u16])
    requires { Room text.old (93 + 42 * lines_told a (length list.now)) }
    ensures { Puts text.old text.new (told a (listed list.now)) }
{
    match a {
        Ok(s) => {
            let c = s.state;
            put_stop(
                text,
                s.word,
                &[c.visits, c.dropped, c.kept as u64, c.waiting as u64],
            );
            put_records(text, list, c.kept);
        }
        Err(x) => put_refusal(text, x),
    }
}
