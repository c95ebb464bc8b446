// The strengths of the prelude's operators, and its data types.
ghost use Rattle.rw_prelude.specs.PreludeTrees.{Gives};
ghost use Rattle.rw_prelude.specs.PreludeText.{strengths, data_types, high_strengths, low_strengths, bool_type, maybe_type, either_type};

use crate::builder::{Builder, Built};
use rw_base::Span;
use rw_tree::{Decl, Side};
use sqlite_items::Items;

impl Builder {
    /// The strengths of the operators.
    #[tactic(auto, unfolding(crate::specs::PreludeText::strengths))]
    pub fn strengths(self) -> Built<Items<Decl<Span>>>
        ensures { Gives result strengths }
    {
        self.join(self.high(), self.low())
    }

    // infixr 9 .
    // infixr 3 &&
    // infixr 2 ||
    #[tactic(auto, unfolding(crate::specs::PreludeText::high_strengths))]
    fn high(self) -> Built<Items<Decl<Span>>>
        ensures { Gives result high_strengths }
    {
        let after = self.strength(Side::Right, 9, self.one(self.name(b".")));
        let and = self.strength(Side::Right, 3, self.one(self.name(b"&&")));
        let or = self.strength(Side::Right, 2, self.one(self.name(b"||")));
        self.three(after, and, or)
    }

    // infixl 1 >>=, >>
    // infixr 0 $
    #[tactic(auto, unfolding(crate::specs::PreludeText::low_strengths))]
    fn low(self) -> Built<Items<Decl<Span>>>
        ensures { Gives result low_strengths }
    {
        let binds = self.two(self.name(b">>="), self.name(b">>"));
        let binds = self.strength(Side::Left, 1, binds);
        let applies = self.strength(Side::Right, 0, self.one(self.name(b"$")));
        self.two(binds, applies)
    }

    /// The data types.
    #[tactic(auto, unfolding(crate::specs::PreludeText::data_types))]
    pub fn data(self) -> Built<Items<Decl<Span>>>
        ensures { Gives result data_types }
    {
        self.join(self.booleans(), self.join(self.maybes(), self.eithers()))
    }

    // data Bool = False | True
    #[tactic(auto, unfolding(crate::specs::PreludeText::bool_type))]
    fn booleans(self) -> Built<Items<Decl<Span>>>
        ensures { Gives result bool_type }
    {
        let false_ = self.constructs(b"False", self.none());
        let true_ = self.constructs(b"True", self.none());
        self.data_type(b"Bool", self.none(), self.two(false_, true_))
    }

    // data Maybe a = Nothing | Just a
    #[tactic(auto, unfolding(crate::specs::PreludeText::maybe_type))]
    fn maybes(self) -> Built<Items<Decl<Span>>>
        ensures { Gives result maybe_type }
    {
        let nothing = self.constructs(b"Nothing", self.none());
        let just = self.constructs(b"Just", self.one(self.type_variable(b"a")));
        self.data_type(b"Maybe", self.one(self.name(b"a")), self.two(nothing, just))
    }

    // data Either a b = Left a | Right b
    #[tactic(auto, unfolding(crate::specs::PreludeText::either_type))]
    fn eithers(self) -> Built<Items<Decl<Span>>>
        ensures { Gives result either_type }
    {
        let left = self.constructs(b"Left", self.one(self.type_variable(b"a")));
        let right = self.constructs(b"Right", self.one(self.type_variable(b"b")));
        self.data_type(
            b"Either",
            self.two(self.name(b"a"), self.name(b"b")),
            self.two(left, right),
        )
    }
}
