//! A greeting that writes all of its text, also where its name is wrong.
ghost use Rattle.std.specs.Prelude.{◌≡◌, ℕ, List, [], ◌∷◌, ◌++◌, false, codes, chars, option_map};
ghost use Rattle.writeable_core.specs.Hint.{hint_sum, text_hint, byte_length};
ghost use Rattle.writeable_core.specs.HintLaws.{Hinted-append, Hinted-exact};
ghost use Rattle.writeable_core.specs.Marks.{plain};
ghost use Rattle.writeable_core.specs.MarksLaws.{characters-plain, characters-both, Nests-append};
ghost use Rattle.writeable_core.specs.MarksLaws.{Nests-plain};

use std::alloc::Global;
use std::process::Abort;
use std::test::Fail;
use writeable::{
    LengthHint, Part, PartsWrite, Sink, SinkError, Text, TryWriteable,
    try_writeable_to_parts_for_test,
};

#[derive(Clone, Copy, Debug, PartialEq, Eq)]
enum GreetingError {
    NoName,
}

#[derive(Drop)]
struct Greeting<N>(N);

impl<N: TryWriteable> TryWriteable for Greeting<N> {
    type Error = GreetingError;

    ghost use Rattle.outside.specs.declared.greeting.GreetingError.TheVariants.{NoName};

    ghost text = { λ s. (chars (codes "Hello, ") ++ N.text s.0) ++ chars (codes "!") };

    ghost marked = { λ s. (plain (chars (codes "Hello, ")) ++ N.marked s.0)
        ++ plain (chars (codes "!")) };

    ghost error = { λ s. option_map (λ _. NoName) (N.error s.0) };

    ghost hint = { λ s. hint_sum (hint_sum (text_hint (chars (codes "Hello, "))) (N.hint s.0))
        (text_hint (chars (codes "!"))) };

    ghost lends = { λ _. false };

    fn try_write_to<S: Sink>(&self, sink: &mut S) -> Result<Result<(), GreetingError>, SinkError> {
        sink.push_str("Hello, ")?;
        let name = self.0.try_write_to(sink)?;
        sink.push_str("!")?;
        match name {
            Ok(()) => Ok(Ok(())),
            Err(_) => Ok(Err(GreetingError::NoName)),
        }
    }

    fn try_write_to_parts<P: PartsWrite>(
        &self,
        sink: &mut P,
    ) -> Result<Result<(), GreetingError>, SinkError> {
        sink.push_str("Hello, ")?;
        let name = self.0.try_write_to_parts(sink)?;
        sink.push_str("!")?;
        match name {
            Ok(()) => Ok(Ok(())),
            Err(_) => Ok(Err(GreetingError::NoName)),
        }
    }

    fn writeable_length_hint(&self) -> LengthHint {
        LengthHint::of("Hello, ") + self.0.writeable_length_hint() + LengthHint::of("!")
    }

    fn try_writeable_borrow(&self) -> Option<Result<&str, (GreetingError, &str)>> {
        None
    }

    ghost marked_text = { λ s.
        characters-both (plain (chars (codes "Hello, ")) ++ N.marked s.0)
        (plain (chars (codes "!")))
        (characters-both (plain (chars (codes "Hello, "))) (N.marked s.0)
        (characters-plain (chars (codes "Hello, "))) (N.marked_text s.0))
        (characters-plain (chars (codes "!"))) };

    ghost marked_nests = { λ s.
        Nests-append (plain (chars (codes "Hello, ")) ++ N.marked s.0) (plain (chars (codes "!")))
        (Nests-append (plain (chars (codes "Hello, "))) (N.marked s.0)
        (Nests-plain (chars (codes "Hello, "))) (N.marked_nests s.0))
        (Nests-plain (chars (codes "!"))) };

    ghost text_hinted = { λ s.
        Hinted-append (hint_sum (text_hint (chars (codes "Hello, "))) (N.hint s.0))
        (text_hint (chars (codes "!")))
        (chars (codes "Hello, ") ++ N.text s.0) (chars (codes "!"))
        (Hinted-append (text_hint (chars (codes "Hello, "))) (N.hint s.0)
        (chars (codes "Hello, ")) (N.text s.0)
        (Hinted-exact (byte_length (chars (codes "Hello, ")))) (N.text_hinted s.0))
        (Hinted-exact (byte_length (chars (codes "!")))) };
}

/// The greeting writes this text and has this error, with an error part from one byte to another.
fn greets_as<T: TryWriteable<Error = GreetingError>>(
    rt: &impl Abort,
    alloc: Global,
    greeting: &T,
    text: &str,
    wrong: &[(usize, usize)],
    error: Option<GreetingError>,
) -> Result<(), Fail> {
    let (sink, found) = try_writeable_to_parts_for_test(alloc, greeting)?;
    assert_eq!(rt; sink.as_str(), text);
    assert_eq!(rt; found, error);
    assert_eq!(rt; sink.spans().len(), wrong.len());
    for (span, place) in sink.spans().iter().zip(wrong) {
        assert_eq!(rt; (span.start, span.end), *place);
        assert_eq!(rt; span.part, Part::ERROR);
    }
    assert_eq!(rt;
        greeting.writeable_length_hint(),
        LengthHint::exact(text.len())
    );
    Ok(())
}

#[test]
fn greets(rt: HostRuntime) -> Result<(), Fail> {
    let alloc = rt.alloc();
    let named: Greeting<Result<Text, Text>> = Greeting(Ok(Text("Alice")));
    greets_as(&rt, alloc, &named, "Hello, Alice!", &[], None)?;
    let nameless: Greeting<Result<Text, Text>> = Greeting(Err(Text("nobody")));
    let error = Some(GreetingError::NoName);
    greets_as(&rt, alloc, &nameless, "Hello, nobody!", &[(7, 13)], error)
}
