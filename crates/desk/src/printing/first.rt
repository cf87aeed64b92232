// The first line of what is printed: a refusal, or the answer word and the counts.
// Its numbers are parameters, not a struct: a proof knows of a parameter that it fits its type, and so has at most 20 digits, and not of a field.
ghost use Rattle.std.specs.Prelude.{◌≡◌, ◌∷◌, ◌≤◌, map, length};
ghost use Rattle.desk.specs.Text.{decimal, line};
ghost use Rattle.desk.specs.Puts.{Room, Puts};
ghost use Rattle.desk.specs.Lines.{word, refused_line, refusal_line};

use crate::text::Text;
use boxes::visit::Word;
use system::refusal::Refused;

fn put_refused(text: &mut Text<'_>, n: u64, offset: u64)
    requires { Room text.old 93 }
    ensures { Puts text.old text.new (refused_line n offset) }
{
    text.word("refused ");
    text.number(n);
    text.word(" at");
    text.rest(&[offset]);
}

pub fn put_refusal(text: &mut Text<'_>, x: Refused)
    requires { Room text.old 93 }
    ensures { Puts text.old text.new (refusal_line x) }
{
    put_refused(text, u8::from(x.why).into(), x.at as u64)
}

// The word is promised here as bytes; the comparison prints it too and promises nothing.
fn answer_word(w: Word) -> &'static str
    ensures { result.now ≡ word w }
{
    match w {
        Word::Finished => "finished",
        Word::Spent => "spent",
        Word::Full => "full",
    }
}

pub fn put_stop(text: &mut Text<'_>, w: Word, counts: &[u64; 4])
    requires { Room text.old 93 }
    ensures put { Puts text.old text.new (line (word w ∷ map decimal counts.now)) }
    ensures short { length (line (word w ∷ map decimal counts.now)) ≤ 93 }
{
    text.word(answer_word(w));
    text.rest(counts);
}
