// What the desk program finds in a system file, and the text that tells it (01, "The program").
#![tactic(auto)]

pub mod printing;
pub mod text;

ghost use Rattle.std.specs.Prelude.{◌≡◌, ◌++◌, length, drop};
ghost use Rattle.runs.specs.Lists.{listed, relisted};
ghost use Rattle.desk.specs.Lines.{told};
ghost use Rattle.desk.specs.Report.{system_found, file_found, found};

use crate::printing::put_answer;
use crate::text::Text;
use runs::runs::Stop;
use system::head::Head;
use system::refusal::Refused;

fn search_system(
    h: Head,
    coefficients: &[i64],
    store: &mut [i64],
    list: &mut [u16],
) -> Result<Stop, Refused>
    ensures { (result ≡ (system_found 1000000 h coefficients.now store.old list.old).answer)
        × (list.new ≡ relisted list.old (system_found 1000000 h coefficients.now store.old list.old).kept) }
{
    let s = waiting::start::start(h, coefficients, store)?;
    runs::runs::run(store, list, h, s, 1000000)
}

fn search_file(
    file: &[u8],
    coefficients: &mut [i64],
    store: &mut [i64],
    list: &mut [u16],
) -> Result<Stop, Refused>
    ensures { (result ≡ (file_found 1000000 file.now coefficients.old store.old list.old).answer)
        × (list.new ≡ relisted list.old (file_found 1000000 file.now coefficients.old store.old list.old).kept) }
{
    let h = file::reading::read(file, coefficients)?;
    search_system(h, coefficients, store, list)
}

// Reads the file and makes the run. What the places hold before is never read.
pub fn search(file: &[u8], list: &mut [u16; 7168]) -> Result<Stop, Refused>
    ensures { (result ≡ (found file.now list.old).answer)
        × (list.new ≡ relisted list.old (found file.now list.old).kept) }
{
    let mut coefficients = [0i64; 192];
    let mut store = [0i64; 6138];
    search_file(file, &mut coefficients, &mut store, list)
}

// Puts what is printed of an answer at the front of the text, and answers how many bytes it is. The longest: a first line of 93 bytes and 1,024 lines of 42.
pub fn tell(a: Result<Stop, Refused>, list: &[u16; 7168], text: &mut [u8; 43101]) -> usize
    ensures { (result ≡ length (told a (listed list.now))) × (text.new ≡ told a (listed list.now) ++ drop result text.old) }
{
    let mut printed = Text::new(text);
    put_answer(&mut printed, a, list);
    printed.at
}
