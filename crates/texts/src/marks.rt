//! Texts around marks in ASCII.
ghost use Rattle.std.specs.Prelude.{◌<◌};
ghost use Rattle.std.specs.Str.{chars};
ghost use Rattle.texts.specs.Calls.{Finds};
ghost use Rattle.texts.specs.Marks.{around_first, without_first, without_last};

/// What stands before and behind the first of these marks.
pub fn around_first(text: &str, mark: char) -> Option<(&str, &str)>
    requires { mark < 128 }
    ensures { Finds (λ halves. (chars halves.0.now, chars halves.1.now)) result (around_first mark (chars text.now)) }
{
    text.split_once(mark)
}

/// A text without the mark at its start.
pub fn without_first(text: &str, mark: char) -> Option<&str>
    requires { mark < 128 }
    ensures { Finds (λ rest. chars rest.now) result (without_first mark (chars text.now)) }
{
    text.strip_prefix(mark)
}

/// A text without the mark at its end.
pub fn without_last(text: &str, mark: char) -> Option<&str>
    requires { mark < 128 }
    ensures { Finds (λ front. chars front.now) result (without_last mark (chars text.now)) }
{
    text.strip_suffix(mark)
}
