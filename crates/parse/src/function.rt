// Functions that a parser applies: what nom takes closures for. They are traits for the reason that `text::Predicate` is
// one: a closure's answers are a relation, and a parser's meaning needs a function.
ghost use Rattle.std.specs.Prelude.{◌≡◌, Bool, List};
ghost use Rattle.text.specs.Cells.{Cell};

use text::Input;

// A pure function of an output: to map it, to make a parser of it, or to keep it as an item. It is handed the input
// beside, to look at what a span of the text holds; its value hangs on the text's items and the argument alone.
pub trait Function<T: Input, A> {
    type Value: Drop;

    ghost value: { Self → List Cell → A → Self.Value };

    fn call(&self, input: &T, argument: A) -> Self::Value
        ensures { result ≡ value self.now (T.cells input.now) argument };
}

// A pure test of an output, likewise.
pub trait Test<T: Input, A> {
    ghost passes: { Self → List Cell → A → Bool };

    fn test(&self, input: &T, output: &A) -> bool
        ensures { result ≡ passes self.now (T.cells input.now) output.now };
}
