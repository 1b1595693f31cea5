//! The setup and the grammars that the sample is spoken by.
ghost use Rattle.std.specs.Prelude.{◌≡◌, IfOk};
ghost use Rattle.sample_lines.specs.Toy.{toy_files};

use norm_base::{Name, SureShelf};
use std::alloc::{AllocError, Global};

/// A shelf with the setup `toy.setup` and its two grammars alone.
pub fn toy_shelf(alloc: Global) -> Result<SureShelf, AllocError>
    ensures { IfOk result (λ shelf. shelf ≡ toy_files) }
{
    let setup = file(alloc, "toy.setup", TOY_SETUP)?;
    let classify = file(alloc, "toy_classify.grm", TOY_CLASSIFY)?;
    let verbalize = file(alloc, "toy_verbalize.grm", TOY_VERBALIZE)?;
    Ok(SureShelf::new(alloc, vec![in alloc; setup, classify, verbalize]?))
}

/// A file of a shelf.
fn file(alloc: Global, name: &str, text: &[u8]) -> Result<(Name, Vec<u8>), AllocError>
    ensures name { IfOk result (λ file. file.0 ≡ name.now) }
    ensures text { IfOk result (λ file. file.1.items ≡ text.now) }
{
    let name = Name::new(alloc, name.as_bytes())?;
    Ok((name, Vec::from_slice(alloc, text)?))
}

/// The setup.
pub const TOY_SETUP: &[u8] = br#"tokenizer_grammar: "toy_classify.grm"
tokenizer_rule: "MAIN"
verbalizer_grammar: "toy_verbalize.grm"
verbalizer_rule: "WORDS"
"#;

/// The grammar of its classifier: words, numbers below 100, dates and full stops.
pub const TOY_CLASSIFY: &[u8] = br#"nonzero = "1" | "2" | "3" | "4" | "5" | "6" | "7" | "8" | "9";
digit = "0" | nonzero;
letter = "a" | "b" | "c" | "d" | "e" | "f" | "g" | "h" | "i" | "j" | "k" | "l" | "m"
       | "n" | "o" | "p" | "q" | "r" | "s" | "t" | "u" | "v" | "w" | "x" | "y" | "z";
month = "january" | "february" | "march" | "april" | "may" | "june" | "july"
      | "august" | "september" | "october" | "november" | "december";
number = digit | (nonzero digit);
day = nonzero | (("1" | "2") digit) | "30" | "31";
name = ("" : "tokens { name: \"") (letter+) ("" : "\" }");
cardinal = ("" : "tokens { cardinal { integer: \"") number ("" : "\" } }");
date = ("" : "tokens { date { day: \"") day (" " : "\" month: \"") month ("" : "\" } }");
stop = "." : "tokens { name: \".\" type: PUNCT }";
item = (name | cardinal | date | stop) <1>;
export MAIN = item (" " item)*;
"#;

/// The grammar of its verbaliser.
pub const TOY_VERBALIZE: &[u8] =
    br#"unit = ("1" : "one") | ("2" : "two") | ("3" : "three") | ("4" : "four") | ("5" : "five")
     | ("6" : "six") | ("7" : "seven") | ("8" : "eight") | ("9" : "nine");
teen = ("10" : "ten") | ("11" : "eleven") | ("12" : "twelve") | ("13" : "thirteen")
     | ("14" : "fourteen") | ("15" : "fifteen") | ("16" : "sixteen")
     | ("17" : "seventeen") | ("18" : "eighteen") | ("19" : "nineteen");
ten = ("2" : "twenty") | ("3" : "thirty") | ("4" : "forty") | ("5" : "fifty")
    | ("6" : "sixty") | ("7" : "seventy") | ("8" : "eighty") | ("9" : "ninety");
number = ("0" : "zero") | unit | teen | (ten ("0" : "")) | (ten ("" : " ") unit);
nth = ("1" : "first") | ("2" : "second") | ("3" : "third") | ("4" : "fourth")
    | ("5" : "fifth") | ("6" : "sixth") | ("7" : "seventh") | ("8" : "eighth")
    | ("9" : "ninth");
day = nth | ("10" : "tenth") | ("11" : "eleventh") | ("12" : "twelfth")
    | ("13" : "thirteenth") | ("14" : "fourteenth") | ("15" : "fifteenth")
    | ("16" : "sixteenth") | ("17" : "seventeenth") | ("18" : "eighteenth")
    | ("19" : "nineteenth") | ("20" : "twentieth") | (("2" : "twenty ") nth)
    | ("30" : "thirtieth") | ("31" : "thirty first");
month = "january" | "february" | "march" | "april" | "may" | "june" | "july"
      | "august" | "september" | "october" | "november" | "december";
cardinal = ("cardinal|integer:" : "") number ("|" : "");
date = ("date|month:" : "") month ("|day:" : " ") day ("|" : "");
export WORDS = cardinal | date;
"#;
