// The prelude's functions on functions and on `Bool`.
ghost use Rattle.rw_prelude.specs.PreludeTrees.{Gives};
ghost use Rattle.rw_prelude.specs.PreludeText.{combinators, identity_function, constant_function, flip_function, composition, application_operator, logic, negation, conjunction, disjunction, otherwise_value};

use crate::builder::{Builder, Built};
use rw_base::Span;
use rw_tree::Decl;
use sqlite_items::Items;

impl Builder {
    /// What combines functions.
    #[tactic(auto, unfolding(crate::specs::PreludeText::combinators))]
    pub fn combinators(self) -> Built<Items<Decl<Span>>>
        ensures { Gives result combinators }
    {
        self.join(
            self.identity(),
            self.join(
                self.constant(),
                self.join(self.flipped(), self.join(self.composed(), self.applied())),
            ),
        )
    }

    // id :: a -> a
    // id x = x
    #[tactic(auto, unfolding(crate::specs::PreludeText::identity_function))]
    fn identity(self) -> Built<Items<Decl<Span>>>
        ensures { Gives result identity_function }
    {
        let written = self.arrow(self.type_variable(b"a"), self.type_variable(b"a"));
        let clause = self.clause(self.one(self.pattern_variable(b"x")), self.variable(b"x"));
        self.function(b"id", written, self.one(clause))
    }

    // const :: a -> b -> a
    // const x y = x
    #[tactic(auto, unfolding(crate::specs::PreludeText::constant_function))]
    fn constant(self) -> Built<Items<Decl<Span>>>
        ensures { Gives result constant_function }
    {
        let written = self.arrow(
            self.type_variable(b"a"),
            self.arrow(self.type_variable(b"b"), self.type_variable(b"a")),
        );
        let clause = self.clause(
            self.two(self.pattern_variable(b"x"), self.pattern_variable(b"y")),
            self.variable(b"x"),
        );
        self.function(b"const", written, self.one(clause))
    }

    // flip :: (a -> b -> c) -> b -> a -> c
    // flip f x y = f y x
    #[tactic(auto, unfolding(crate::specs::PreludeText::flip_function))]
    fn flipped(self) -> Built<Items<Decl<Span>>>
        ensures { Gives result flip_function }
    {
        let written = self.arrow(
            self.arrow(
                self.type_variable(b"a"),
                self.arrow(self.type_variable(b"b"), self.type_variable(b"c")),
            ),
            self.arrow(
                self.type_variable(b"b"),
                self.arrow(self.type_variable(b"a"), self.type_variable(b"c")),
            ),
        );
        let clause = self.clause(
            self.three(
                self.pattern_variable(b"f"),
                self.pattern_variable(b"x"),
                self.pattern_variable(b"y"),
            ),
            self.application(
                self.variable(b"f"),
                self.two(self.variable(b"y"), self.variable(b"x")),
            ),
        );
        self.function(b"flip", written, self.one(clause))
    }

    // (.) :: (b -> c) -> (a -> b) -> a -> c
    // f . g = \x -> f (g x)
    #[tactic(auto, unfolding(crate::specs::PreludeText::composition))]
    fn composed(self) -> Built<Items<Decl<Span>>>
        ensures { Gives result composition }
    {
        let written = self.arrow(
            self.arrow(self.type_variable(b"b"), self.type_variable(b"c")),
            self.arrow(
                self.arrow(self.type_variable(b"a"), self.type_variable(b"b")),
                self.arrow(self.type_variable(b"a"), self.type_variable(b"c")),
            ),
        );
        let clause = self.clause(
            self.two(self.pattern_variable(b"f"), self.pattern_variable(b"g")),
            self.lambda(
                self.one(self.pattern_variable(b"x")),
                self.application(
                    self.variable(b"f"),
                    self.one(self.application(self.variable(b"g"), self.one(self.variable(b"x")))),
                ),
            ),
        );
        self.function(b".", written, self.one(clause))
    }

    // ($) :: (a -> b) -> a -> b
    // f $ x = f x
    #[tactic(auto, unfolding(crate::specs::PreludeText::application_operator))]
    fn applied(self) -> Built<Items<Decl<Span>>>
        ensures { Gives result application_operator }
    {
        let written = self.arrow(
            self.arrow(self.type_variable(b"a"), self.type_variable(b"b")),
            self.arrow(self.type_variable(b"a"), self.type_variable(b"b")),
        );
        let clause = self.clause(
            self.two(self.pattern_variable(b"f"), self.pattern_variable(b"x")),
            self.application(self.variable(b"f"), self.one(self.variable(b"x"))),
        );
        self.function(b"$", written, self.one(clause))
    }

    /// What works on `Bool`.
    #[tactic(auto, unfolding(crate::specs::PreludeText::logic))]
    pub fn logic(self) -> Built<Items<Decl<Span>>>
        ensures { Gives result logic }
    {
        self.join(
            self.negated(),
            self.join(self.both(), self.join(self.any(), self.otherwise())),
        )
    }

    // not :: Bool -> Bool
    // not True = False
    // not False = True
    #[tactic(auto, unfolding(crate::specs::PreludeText::negation))]
    fn negated(self) -> Built<Items<Decl<Span>>>
        ensures { Gives result negation }
    {
        let written = self.arrow(
            self.type_constructor(b"Bool"),
            self.type_constructor(b"Bool"),
        );
        let first = self.clause(
            self.one(self.pattern_constructor(b"True", self.none())),
            self.constructor(b"False"),
        );
        let second = self.clause(
            self.one(self.pattern_constructor(b"False", self.none())),
            self.constructor(b"True"),
        );
        self.function(b"not", written, self.two(first, second))
    }

    // (&&) :: Bool -> Bool -> Bool
    // True && x = x
    // False && x = False
    #[tactic(auto, unfolding(crate::specs::PreludeText::conjunction))]
    fn both(self) -> Built<Items<Decl<Span>>>
        ensures { Gives result conjunction }
    {
        let written = self.arrow(
            self.type_constructor(b"Bool"),
            self.arrow(
                self.type_constructor(b"Bool"),
                self.type_constructor(b"Bool"),
            ),
        );
        let first = self.clause(
            self.two(
                self.pattern_constructor(b"True", self.none()),
                self.pattern_variable(b"x"),
            ),
            self.variable(b"x"),
        );
        let second = self.clause(
            self.two(
                self.pattern_constructor(b"False", self.none()),
                self.pattern_variable(b"x"),
            ),
            self.constructor(b"False"),
        );
        self.function(b"&&", written, self.two(first, second))
    }

    // (||) :: Bool -> Bool -> Bool
    // True || x = True
    // False || x = x
    #[tactic(auto, unfolding(crate::specs::PreludeText::disjunction))]
    fn any(self) -> Built<Items<Decl<Span>>>
        ensures { Gives result disjunction }
    {
        let written = self.arrow(
            self.type_constructor(b"Bool"),
            self.arrow(
                self.type_constructor(b"Bool"),
                self.type_constructor(b"Bool"),
            ),
        );
        let first = self.clause(
            self.two(
                self.pattern_constructor(b"True", self.none()),
                self.pattern_variable(b"x"),
            ),
            self.constructor(b"True"),
        );
        let second = self.clause(
            self.two(
                self.pattern_constructor(b"False", self.none()),
                self.pattern_variable(b"x"),
            ),
            self.variable(b"x"),
        );
        self.function(b"||", written, self.two(first, second))
    }

    // otherwise :: Bool
    // otherwise = True
    #[tactic(auto, unfolding(crate::specs::PreludeText::otherwise_value))]
    fn otherwise(self) -> Built<Items<Decl<Span>>>
        ensures { Gives result otherwise_value }
    {
        let written = self.type_constructor(b"Bool");
        let clause = self.clause(self.none(), self.constructor(b"True"));
        self.function(b"otherwise", written, self.one(clause))
    }
}
