// Numbers in words, read and printed. A word that is no number is read as 0.
use iso_text::{Frac, NoMemory, Text};

fn whole(word: Option<&str>) -> i32 {
    word.unwrap_or("").parse().unwrap_or(0)
}

pub fn three(text: &str) -> [i32; 3] {
    let mut words = text.split(' ');
    [
        whole(words.next()),
        whole(words.next()),
        whole(words.next()),
    ]
}

fn fraction(word: Option<&str>) -> Frac {
    let (num, den) = word
        .unwrap_or("")
        .split_once('/')
        .unwrap_or((word.unwrap_or(""), "1"));
    Frac {
        num: num.parse().unwrap_or(0),
        den: den.parse().unwrap_or(0),
    }
}

pub fn fractions(text: &str) -> [Frac; 3] {
    let mut words = text.split(' ');
    [
        fraction(words.next()),
        fraction(words.next()),
        fraction(words.next()),
    ]
}

pub fn push_whole(text: &mut Text, n: i64) -> Result<(), NoMemory> {
    if n < 0 {
        text.push(b"-")?;
    }
    text.push_number(n.unsigned_abs())
}

// The numbers, a blank before each.
pub fn push_numbers(text: &mut Text, numbers: &[usize]) -> Result<(), NoMemory> {
    for n in numbers {
        text.push(b" ")?;
        text.push_number(*n as u64)?;
    }
    Ok(())
}

pub fn push_fraction(text: &mut Text, x: Frac) -> Result<(), NoMemory> {
    push_whole(text, i64::from(x.num))?;
    if x.den != 1 {
        text.push(b"/")?;
        text.push_number(u64::from(x.den))?;
    }
    Ok(())
}
