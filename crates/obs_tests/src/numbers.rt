// Number texts, read and written.
use arrayvec::ArrayString;
use psr_base::{Fixed, NumberFault};

// Each line: a text (not trimmed), the number of decimals, and the result: the number, `large`, or `bad` and a place.
const TEXTS: &str = "
-200| 6 | -200000000
.5| 3 | 500
1400.| 0 | 1400
64.0009| 3 | 64000
-0.001999| 6 | -1999
-0.0019999| 6 | -1999
-0.9| 0 | 0
+2.9| 0 | 2
0000000000000000000000000000007| 0 | 7
7.0000000000000000000000000000000| 9 | 7000000000
1.999999999999999999999999999999| 9 | 1999999999
-00.1| 2 | -10
1000000000000000000| 0 | 1000000000000000000
-1000000000000000000.9| 0 | -1000000000000000000
1000000000000000001| 0 | large
-1000000000000000001| 0 | large
1000000000.000000001| 9 | large
1000000000000000000| 1 | large
1000000000000000000000000000000| 0 | large
| 0 | bad 0
+| 0 | bad 1
-| 0 | bad 1
.| 0 | bad 1
-.| 0 | bad 2
6.4e1| 3 | bad 3
+-1| 0 | bad 1
1.2.3| 0 | bad 3
 1| 0 | bad 0
1\0| 0 | bad 1
1000000000000000000000x| 0 | bad 22
";

// Each line: a value, the number of decimals, and its text.
const VALUES: &str = "
-5 | 1 | -0.5
5 | 0 | 5
0 | 3 | 0.000
-200000000 | 6 | -200.000000
24975 | 3 | 24.975
9223372036854775807 | 9 | 9223372036.854775807
-9223372036854775808 | 9 | -9223372036.854775808
-9223372036854775808 | 0 | -9223372036854775808
";

// The parts of a line. The second one is a number.
fn parts_of(line: &str) -> (&str, u32, &str) {
    let (text, rest) = line.split_once('|').unwrap_or((line, ""));
    let (decimals, wanted) = rest.split_once('|').unwrap_or((rest, ""));
    let decimals = decimals.trim().parse::<u32>().unwrap_or(0);
    (text, decimals.min(9), wanted.trim())
}

// Whether a result is as wanted: a number, `large`, or `bad 3`.
fn is_wanted(answer: Result<i64, NumberFault>, wanted: &str) -> bool {
    match answer {
        Ok(number) => wanted.parse::<i64>() == Ok(number),
        Err(NumberFault::TooLarge) => wanted == "large",
        Err(NumberFault::BadNumber { place }) => match wanted.strip_prefix("bad ") {
            Some(wanted) => wanted.parse::<usize>() == Ok(place),
            None => false,
        },
    }
}

// Whether the text of a line gives the result of the line.
fn is_read(line: &str) -> bool {
    let (text, decimals, wanted) = parts_of(line);
    is_wanted(Fixed::read(text.as_bytes(), decimals.min(9)), wanted)
}

// Whether the value of a line is written as its text.
fn is_written(line: &str) -> bool {
    let (value, decimals, wanted) = parts_of(line);
    let Ok(value) = value.trim().parse::<i64>() else {
        return false;
    };
    let mut text = ArrayString::new();
    Fixed::write(value, decimals.min(9), &mut text);
    text.as_str() == wanted
}

#[test]
fn texts_are_read(rt: HostRuntime) {
    for line in TEXTS.lines() {
        assert!(rt; line.is_empty() || is_read(line), "{line:?}");
    }
}

#[test]
fn values_are_written(rt: HostRuntime) {
    for line in VALUES.lines() {
        assert!(rt; line.is_empty() || is_written(line), "{line}");
    }
}
