// Parts of the line on standard error.
ghost use Rattle.std.specs.Prelude.{◌≡◌, ◌≤◌, ◌+◌, ◌++◌, [], codes, length};
ghost use Rattle.std.specs.Fmt.{decimal};
ghost use Rattle.dada_model.specs.Observation.{keyword};
ghost use Rattle.run_outcome.specs.Texts.{option_text};

use dada_model::Key;
use search_words::Opt;
use text_line::Line;

/// Begins the line of an option that is refused.
pub(crate) fn push_option(line: &mut Line, opt: Opt)
    requires { line.old ≡ [] }
    ensures text { line.new ≡ codes "option " ++ option_text opt }
    ensures bound { length line.new ≤ 64 }
{
    line.push_str("option ");
    if opt != Opt::File {
        line.push_str("--");
    }
    line.push_str(opt.name());
}

/// Appends a name and a number.
pub(crate) fn push_named_number(line: &mut Line, name: &str, number: u64)
    requires room { length line.old ≤ 190 }
    requires short { length name.now ≤ 19 }
    ensures text { line.new ≡ line.old ++ (name.now ++ decimal number) }
    ensures bound { length line.new ≤ length line.old + 39 }
{
    line.push_str(name);
    line.push_number(number);
}

/// Appends a name and a number of 32 bits.
pub(crate) fn push_named_word(line: &mut Line, name: &str, number: u32)
    requires room { length line.old ≤ 190 }
    requires short { length name.now ≤ 19 }
    ensures text { line.new ≡ line.old ++ (name.now ++ decimal number) }
    ensures bound { length line.new ≤ length line.old + 39 }
{
    push_named_number(line, name, u64::from(number));
}

/// Appends a name and a keyword.
pub(crate) fn push_named_key(line: &mut Line, name: &str, key: Key)
    requires room { length line.old ≤ 128 }
    requires short { length name.now ≤ 16 }
    ensures text { line.new ≡ line.old ++ (name.now ++ keyword key) }
    ensures bound { length line.new ≤ length line.old + 36 }
{
    line.push_str(name);
    line.push_str(key.name());
}
