// The prelude's functions on pairs and on data with cases.
ghost use Rattle.rw_prelude.specs.PreludeTrees.{Gives};
ghost use Rattle.rw_prelude.specs.PreludeText.{pairs, first_part, second_part, curry_function, uncurry_function, cases, maybe_function, either_function, when_function};

use crate::builder::{Builder, Built};
use rw_base::Span;
use rw_tree::Decl;
use sqlite_items::Items;

impl Builder {
    /// What works on pairs.
    #[tactic(auto, unfolding(crate::specs::PreludeText::pairs))]
    pub fn pairs(self) -> Built<Items<Decl<Span>>>
        ensures { Gives result pairs }
    {
        self.join(
            self.first(),
            self.join(self.second(), self.join(self.curried(), self.uncurried())),
        )
    }

    // fst :: (a, b) -> a
    // fst (x, y) = x
    #[tactic(auto, unfolding(crate::specs::PreludeText::first_part))]
    fn first(self) -> Built<Items<Decl<Span>>>
        ensures { Gives result first_part }
    {
        let written = self.arrow(
            self.tuple_type(self.two(self.type_variable(b"a"), self.type_variable(b"b"))),
            self.type_variable(b"a"),
        );
        let clause = self.clause(
            self.one(self.tuple_pattern(self.two(
                self.pattern_variable(b"x"),
                self.pattern_variable(b"y"),
            ))),
            self.variable(b"x"),
        );
        self.function(b"fst", written, self.one(clause))
    }

    // snd :: (a, b) -> b
    // snd (x, y) = y
    #[tactic(auto, unfolding(crate::specs::PreludeText::second_part))]
    fn second(self) -> Built<Items<Decl<Span>>>
        ensures { Gives result second_part }
    {
        let written = self.arrow(
            self.tuple_type(self.two(self.type_variable(b"a"), self.type_variable(b"b"))),
            self.type_variable(b"b"),
        );
        let clause = self.clause(
            self.one(self.tuple_pattern(self.two(
                self.pattern_variable(b"x"),
                self.pattern_variable(b"y"),
            ))),
            self.variable(b"y"),
        );
        self.function(b"snd", written, self.one(clause))
    }

    // curry :: ((a, b) -> c) -> a -> b -> c
    // curry f x y = f (x, y)
    #[tactic(auto, unfolding(crate::specs::PreludeText::curry_function))]
    fn curried(self) -> Built<Items<Decl<Span>>>
        ensures { Gives result curry_function }
    {
        let written = self.arrow(
            self.arrow(
                self.tuple_type(self.two(self.type_variable(b"a"), self.type_variable(b"b"))),
                self.type_variable(b"c"),
            ),
            self.arrow(
                self.type_variable(b"a"),
                self.arrow(self.type_variable(b"b"), self.type_variable(b"c")),
            ),
        );
        let clause = self.clause(
            self.three(
                self.pattern_variable(b"f"),
                self.pattern_variable(b"x"),
                self.pattern_variable(b"y"),
            ),
            self.application(
                self.variable(b"f"),
                self.one(self.tuple(self.two(self.variable(b"x"), self.variable(b"y")))),
            ),
        );
        self.function(b"curry", written, self.one(clause))
    }

    // uncurry :: (a -> b -> c) -> (a, b) -> c
    // uncurry f (x, y) = f x y
    #[tactic(auto, unfolding(crate::specs::PreludeText::uncurry_function))]
    fn uncurried(self) -> Built<Items<Decl<Span>>>
        ensures { Gives result uncurry_function }
    {
        let written = self.arrow(
            self.arrow(
                self.type_variable(b"a"),
                self.arrow(self.type_variable(b"b"), self.type_variable(b"c")),
            ),
            self.arrow(
                self.tuple_type(self.two(self.type_variable(b"a"), self.type_variable(b"b"))),
                self.type_variable(b"c"),
            ),
        );
        let clause = self.clause(
            self.two(
                self.pattern_variable(b"f"),
                self.tuple_pattern(self.two(
                    self.pattern_variable(b"x"),
                    self.pattern_variable(b"y"),
                )),
            ),
            self.application(
                self.variable(b"f"),
                self.two(self.variable(b"x"), self.variable(b"y")),
            ),
        );
        self.function(b"uncurry", written, self.one(clause))
    }

    /// What tells cases apart.
    #[tactic(auto, unfolding(crate::specs::PreludeText::cases))]
    pub fn cases(self) -> Built<Items<Decl<Span>>>
        ensures { Gives result cases }
    {
        self.join(self.on_maybe(), self.join(self.on_either(), self.when()))
    }

    // maybe :: b -> (a -> b) -> Maybe a -> b
    // maybe z f Nothing = z
    // maybe z f (Just x) = f x
    #[tactic(auto, unfolding(crate::specs::PreludeText::maybe_function))]
    fn on_maybe(self) -> Built<Items<Decl<Span>>>
        ensures { Gives result maybe_function }
    {
        let written = self.arrow(
            self.type_variable(b"b"),
            self.arrow(
                self.arrow(self.type_variable(b"a"), self.type_variable(b"b")),
                self.arrow(
                    self.type_application(
                        self.type_constructor(b"Maybe"),
                        self.one(self.type_variable(b"a")),
                    ),
                    self.type_variable(b"b"),
                ),
            ),
        );
        let first = self.clause(
            self.three(
                self.pattern_variable(b"z"),
                self.pattern_variable(b"f"),
                self.pattern_constructor(b"Nothing", self.none()),
            ),
            self.variable(b"z"),
        );
        let second = self.clause(
            self.three(
                self.pattern_variable(b"z"),
                self.pattern_variable(b"f"),
                self.pattern_constructor(b"Just", self.one(self.pattern_variable(b"x"))),
            ),
            self.application(self.variable(b"f"), self.one(self.variable(b"x"))),
        );
        self.function(b"maybe", written, self.two(first, second))
    }

    // either :: (a -> c) -> (b -> c) -> Either a b -> c
    // either f g (Left x) = f x
    // either f g (Right y) = g y
    #[tactic(auto, unfolding(crate::specs::PreludeText::either_function))]
    fn on_either(self) -> Built<Items<Decl<Span>>>
        ensures { Gives result either_function }
    {
        let written = self.arrow(
            self.arrow(self.type_variable(b"a"), self.type_variable(b"c")),
            self.arrow(
                self.arrow(self.type_variable(b"b"), self.type_variable(b"c")),
                self.arrow(
                    self.type_application(
                        self.type_constructor(b"Either"),
                        self.two(self.type_variable(b"a"), self.type_variable(b"b")),
                    ),
                    self.type_variable(b"c"),
                ),
            ),
        );
        let first = self.clause(
            self.three(
                self.pattern_variable(b"f"),
                self.pattern_variable(b"g"),
                self.pattern_constructor(b"Left", self.one(self.pattern_variable(b"x"))),
            ),
            self.application(self.variable(b"f"), self.one(self.variable(b"x"))),
        );
        let second = self.clause(
            self.three(
                self.pattern_variable(b"f"),
                self.pattern_variable(b"g"),
                self.pattern_constructor(b"Right", self.one(self.pattern_variable(b"y"))),
            ),
            self.application(self.variable(b"g"), self.one(self.variable(b"y"))),
        );
        self.function(b"either", written, self.two(first, second))
    }

    // when :: Monad m => Bool -> m () -> m ()
    // when True k = k
    // when False k = return ()
    #[tactic(auto, unfolding(crate::specs::PreludeText::when_function))]
    fn when(self) -> Built<Items<Decl<Span>>>
        ensures { Gives result when_function }
    {
        let written = self.arrow(
            self.type_constructor(b"Bool"),
            self.arrow(
                self.type_application(
                    self.type_variable(b"m"),
                    self.one(self.tuple_type(self.none())),
                ),
                self.type_application(
                    self.type_variable(b"m"),
                    self.one(self.tuple_type(self.none())),
                ),
            ),
        );
        let first = self.clause(
            self.two(
                self.pattern_constructor(b"True", self.none()),
                self.pattern_variable(b"k"),
            ),
            self.variable(b"k"),
        );
        let second = self.clause(
            self.two(
                self.pattern_constructor(b"False", self.none()),
                self.pattern_variable(b"k"),
            ),
            self.application(self.variable(b"return"), self.one(self.tuple(self.none()))),
        );
        self.function(b"when", written, self.two(first, second))
    }
}
