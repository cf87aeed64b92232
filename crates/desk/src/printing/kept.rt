// The lines of the kept boxes.
ghost use Rattle.std.specs.Prelude.{◌≡◌, length, take};
ghost use Rattle.runs.specs.Lists.{first, listed};
ghost use Rattle.desk.specs.Puts.{Fits, Puts};
ghost use Rattle.desk.specs.Lines.{kept_line, kept_lines};

use crate::text::Text;

// A record is seven numbers.
#[tactic(auto, unfolding(crate::specs::Text::line, crate::specs::Text::ended))]
fn put_record(text: &mut Text<'_>, numbers: &[u16])
    requires { (length numbers.now ≡ 7) × Fits text.old (kept_line (first numbers.now)) }
    ensures { Puts text.old text.new (kept_line (first numbers.now)) }
{
    let &[s1, k1, s2, k2, s3, k3, mark] = numbers else {
        return;
    };
    text.number(u64::from(s1));
    // A closure, for a proof does not know what `u64::from` answers where it is passed as a value.
    text.rest(&[k1, s2, k2, s3, k3, mark].map(|n| u64::from(n)));
}

// The first records of the list, as many as are kept and there.
pub fn put_records(text: &mut Text<'_>, list: &[u16], kept: usize)
    requires { Fits text.old (kept_lines (take kept (listed list.now))) }
    ensures { Puts text.old text.new (kept_lines (take kept (listed list.now))) }
{
    for numbers in list.chunks_exact(7).take(kept) {
        put_record(text, numbers);
    }
}
