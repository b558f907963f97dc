// The text that programs print, formed into lent buffers.
#![tactic(auto)]

ghost use Rattle.std.specs.Prelude.{◌≡◌, ◌≤◌, length, decimal, IfOk};
ghost use Rattle.buffers.specs.Pages.{held, loan_of};
ghost use Rattle.report.specs.Adding.{Added};
ghost use Rattle.report.specs.Lines.{number_of, place_of, refusal_line, printing};
ghost use Rattle.report.specs.declared.Refusal.TheVariants.{Machine as by_machine, File as by_file, Text as by_text};

use buffers::Page;
pub use buffers::Short;
use numbers::write_decimal;

/// Why a call was refused, by the kind of the call.
#[derive(Clone, Copy, PartialEq, Eq, Debug)]
pub enum Refusal {
    /// The machine's: load, run, look, peek.
    Machine(machine::Refusal),
    /// The image file's.
    File(image_file::Refusal),
    /// The switch text's.
    Text(text_port::Refusal),
}

// By hand: by `from_gives` a clause knows which variant `?` makes.
impl From<machine::Refusal> for Refusal {
    ghost from_gives = { λ e r. r ≡ by_machine e };

    fn from(refusal: machine::Refusal) -> Refusal {
        Refusal::Machine(refusal)
    }
}

impl From<image_file::Refusal> for Refusal {
    ghost from_gives = { λ e r. r ≡ by_file e };

    fn from(refusal: image_file::Refusal) -> Refusal {
        Refusal::File(refusal)
    }
}

impl From<text_port::Refusal> for Refusal {
    ghost from_gives = { λ e r. r ≡ by_text e };

    fn from(refusal: text_port::Refusal) -> Refusal {
        Refusal::Text(refusal)
    }
}

impl Refusal {
    /// The refusal's number.
    pub fn number(self) -> u8
        ensures { result ≡ number_of self }
    {
        match self {
            Refusal::Machine(refusal) => refusal.number(),
            Refusal::File(refusal) => refusal.number(),
            Refusal::Text(refusal) => refusal.number(),
        }
    }
}

// Appends the usual digits of a number.
// `loan`, as at each that takes a `&mut Page`: another buffer could be put in its place.
fn append_decimal(n: u64, page: &mut Page<'_>) -> Result<(), Short>
    ensures loan { loan_of page.new ≡ loan_of page.old }
    ensures added { Added (decimal n) (held page.old) result (held page.new) }
{
    let mut places = [0; 20];
    let from = write_decimal(n, &mut places);
    page.append(&places[from..])
}

// Appends what stands behind a refusal's number.
fn append_place(refusal: Refusal, page: &mut Page<'_>) -> Result<(), Short>
    ensures loan { loan_of page.new ≡ loan_of page.old }
    ensures added { Added (place_of refusal) (held page.old) result (held page.new) }
{
    match refusal {
        Refusal::Text(text_port::Refusal::Token(k)) => {
            page.append(b" token ")?;
            append_decimal(k as u64, page)
        }
        Refusal::Text(text_port::Refusal::Length) | Refusal::Machine(_) | Refusal::File(_) => {
            Ok(())
        }
    }
}

fn append_refusal(refusal: Refusal, page: &mut Page<'_>) -> Result<(), Short>
    ensures loan { loan_of page.new ≡ loan_of page.old }
    ensures added { Added (refusal_line refusal) (held page.old) result (held page.new) }
{
    page.append(b"refused ")?;
    append_decimal(u64::from(refusal.number()), page)?;
    append_place(refusal, page)?;
    page.append(b"\n")
}

/// Writes the line of a refusal to the front of `out`, zeros behind it, and answers its length.
// A length: the front itself would keep `out` lent, of which `after` speaks.
pub fn write_refusal(refusal: Refusal, out: &mut [u8]) -> Result<usize, Short>
    ensures answer { result ≡ (printing (refusal_line refusal) (length out.old)).answer }
    ensures after { out.new ≡ (printing (refusal_line refusal) (length out.old)).after }
    ensures within { IfOk result (λ n. n ≤ length out.old) }
{
    out.fill(0);
    let mut page = Page::new(out);
    if let Err(short) = append_refusal(refusal, &mut page) {
        out.fill(0);
        return Err(short);
    }
    Ok(page.text().len())
}
