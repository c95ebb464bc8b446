// Trees of what no source declares, made from answers that may be want of memory: what is built with it reads
// like its source.
ghost use Rattle.std.specs.Prelude.{ℕ, List, [], ◌∷◌, ◌++◌};
ghost use Rattle.rw_prelude.specs.PreludeTrees.{Gives, nowhere, plain_clause, constructor_named, data_named, strength_of, function_named};

use rw_base::{Name, OutOfMemory, Place, Span};
use rw_tree::{Alt, Constructor, DataDecl, Decl, Expr, Pat, Rhs, Side, Written};
use sqlite_items::{Boxed, Items};
use std::alloc::Global;

/// What is built, if memory does not run out.
pub type Built<T> = Result<T, OutOfMemory>;

/// The span of what no source declares.
const NOWHERE: Span = Span {
    first: Place { line: 0, column: 0 },
    from: 0,
    to: 0,
};

/// Builds trees, in memory of `alloc`. Each call gives what is built of its arguments, unless one of them, or the
/// call, is want of memory.
#[derive(Clone, Copy)]
pub struct Builder {
    pub alloc: Global,
}

impl Builder {
    /// A name with these bytes.
    #[tactic(auto, unfolding(crate::specs::PreludeTrees::Gives))]
    pub fn name(self, name: &[u8]) -> Built<Name>
        ensures { Gives result name.now }
    {
        Name::from_slice(self.alloc, name)
    }

    /// The empty list.
    #[tactic(auto, unfolding(crate::specs::PreludeTrees::Gives))]
    pub fn none<T>(self) -> Built<Items<T>>
        ensures { Gives result [] }
    {
        Ok(Items::new(self.alloc))
    }

    /// A list of one item.
    #[tactic(auto, unfolding(crate::specs::PreludeTrees::Gives))]
    pub fn one<T: Drop>(self, item: Built<T>) -> Built<Items<T>>
        ensures { (x : T) → Gives item x → Gives result (x ∷ []) }
    {
        let mut all = Items::new(self.alloc);
        all.push(item?)?;
        Ok(all)
    }

    /// A list of two items.
    #[tactic(auto, unfolding(crate::specs::PreludeTrees::Gives))]
    pub fn two<T: Drop>(self, first: Built<T>, second: Built<T>) -> Built<Items<T>>
        ensures { (x y : T) → Gives first x → Gives second y → Gives result (x ∷ y ∷ []) }
    {
        let mut all = self.one(first)?;
        all.push(second?)?;
        Ok(all)
    }

    /// A list of three items.
    #[tactic(auto, unfolding(crate::specs::PreludeTrees::Gives))]
    pub fn three<T: Drop>(
        self,
        first: Built<T>,
        second: Built<T>,
        third: Built<T>,
    ) -> Built<Items<T>>
        ensures { (x y z : T) → Gives first x → Gives second y → Gives third z → Gives result (x ∷ y ∷ z ∷ []) }
    {
        let mut all = self.two(first, second)?;
        all.push(third?)?;
        Ok(all)
    }

    /// One list and then another.
    #[tactic(auto, unfolding(crate::specs::PreludeTrees::Gives))]
    pub fn join<T: Drop>(self, front: Built<Items<T>>, back: Built<Items<T>>) -> Built<Items<T>>
        ensures { (xs ys : List T) → Gives front xs → Gives back ys → Gives result (xs ++ ys) }
    {
        let mut all = front?;
        all.append(back?)?;
        Ok(all)
    }

    /// A type variable.
    #[tactic(auto, unfolding(crate::specs::PreludeTrees::Gives))]
    pub fn type_variable(self, name: &[u8]) -> Built<Written>
        ensures { Gives result (Written.Var name.now) }
    {
        Ok(Written::Var(self.name(name)?))
    }

    /// A type constructor.
    #[tactic(auto, unfolding(crate::specs::PreludeTrees::Gives))]
    pub fn type_constructor(self, name: &[u8]) -> Built<Written>
        ensures { Gives result (Written.Con name.now) }
    {
        Ok(Written::Con(self.name(name)?))
    }

    /// A type and its arguments.
    #[tactic(auto, unfolding(crate::specs::PreludeTrees::Gives))]
    pub fn type_application(
        self,
        head: Built<Written>,
        parts: Built<Items<Written>>,
    ) -> Built<Written>
        ensures { (h : Written) (ps : List Written) → Gives head h → Gives parts ps → Gives result (Written.Apply h ps) }
    {
        let head = Boxed::new(self.alloc, head?)?;
        Ok(Written::Apply(head, parts?))
    }

    /// `from -> to`.
    #[tactic(auto, unfolding(crate::specs::PreludeTrees::Gives))]
    pub fn arrow(self, from: Built<Written>, to: Built<Written>) -> Built<Written>
        ensures { (f t : Written) → Gives from f → Gives to t → Gives result (Written.Fun f t) }
    {
        let from = Boxed::new(self.alloc, from?)?;
        let to = Boxed::new(self.alloc, to?)?;
        Ok(Written::Fun(from, to))
    }

    /// A tuple type.
    #[tactic(auto, unfolding(crate::specs::PreludeTrees::Gives))]
    pub fn tuple_type(self, parts: Built<Items<Written>>) -> Built<Written>
        ensures { (ps : List Written) → Gives parts ps → Gives result (Written.Tuple ps) }
    {
        Ok(Written::Tuple(parts?))
    }

    /// A variable as a pattern.
    #[tactic(auto, unfolding(crate::specs::PreludeTrees::Gives))]
    pub fn pattern_variable(self, name: &[u8]) -> Built<Pat<Span>>
        ensures { Gives result (Pat.Var nowhere name.now) }
    {
        Ok(Pat::Var(NOWHERE, self.name(name)?))
    }

    /// A constructor and patterns for its fields.
    #[tactic(auto, unfolding(crate::specs::PreludeTrees::Gives))]
    pub fn pattern_constructor(
        self,
        name: &[u8],
        parts: Built<Items<Pat<Span>>>,
    ) -> Built<Pat<Span>>
        ensures { (ps : List (Pat Span)) → Gives parts ps → Gives result (Pat.Con nowhere name.now ps) }
    {
        Ok(Pat::Con(NOWHERE, self.name(name)?, parts?))
    }

    /// A tuple of patterns.
    #[tactic(auto, unfolding(crate::specs::PreludeTrees::Gives))]
    pub fn tuple_pattern(self, parts: Built<Items<Pat<Span>>>) -> Built<Pat<Span>>
        ensures { (ps : List (Pat Span)) → Gives parts ps → Gives result (Pat.Tuple nowhere ps) }
    {
        Ok(Pat::Tuple(NOWHERE, parts?))
    }

    /// A variable.
    #[tactic(auto, unfolding(crate::specs::PreludeTrees::Gives))]
    pub fn variable(self, name: &[u8]) -> Built<Expr<Span>>
        ensures { Gives result (Expr.Var nowhere name.now) }
    {
        Ok(Expr::Var(NOWHERE, self.name(name)?))
    }

    /// A constructor.
    #[tactic(auto, unfolding(crate::specs::PreludeTrees::Gives))]
    pub fn constructor(self, name: &[u8]) -> Built<Expr<Span>>
        ensures { Gives result (Expr.Con nowhere name.now) }
    {
        Ok(Expr::Con(NOWHERE, self.name(name)?))
    }

    /// A function and its arguments.
    #[tactic(auto, unfolding(crate::specs::PreludeTrees::Gives))]
    pub fn application(
        self,
        head: Built<Expr<Span>>,
        parts: Built<Items<Expr<Span>>>,
    ) -> Built<Expr<Span>>
        ensures { (h : Expr Span) (ps : List (Expr Span)) → Gives head h → Gives parts ps → Gives result (Expr.Apply nowhere h ps) }
    {
        let head = Boxed::new(self.alloc, head?)?;
        Ok(Expr::Apply(NOWHERE, head, parts?))
    }

    /// A tuple.
    #[tactic(auto, unfolding(crate::specs::PreludeTrees::Gives))]
    pub fn tuple(self, parts: Built<Items<Expr<Span>>>) -> Built<Expr<Span>>
        ensures { (ps : List (Expr Span)) → Gives parts ps → Gives result (Expr.Tuple nowhere ps) }
    {
        Ok(Expr::Tuple(NOWHERE, parts?))
    }

    /// `\ patterns -> body`.
    #[tactic(auto, unfolding(crate::specs::PreludeTrees::Gives))]
    pub fn lambda(self, pats: Built<Items<Pat<Span>>>, body: Built<Expr<Span>>) -> Built<Expr<Span>>
        ensures { (ps : List (Pat Span)) (b : Expr Span) → Gives pats ps → Gives body b → Gives result (Expr.Lambda nowhere ps b) }
    {
        let body = Boxed::new(self.alloc, body?)?;
        Ok(Expr::Lambda(NOWHERE, pats?, body))
    }

    /// A clause without guards and without local bindings.
    #[tactic(auto, unfolding(crate::specs::PreludeTrees::Gives))]
    pub fn clause(self, pats: Built<Items<Pat<Span>>>, body: Built<Expr<Span>>) -> Built<Alt<Span>>
        ensures { (ps : List (Pat Span)) (b : Expr Span) → Gives pats ps → Gives body b → Gives result (plain_clause ps b) }
    {
        Ok(Alt {
            at: NOWHERE,
            pats: pats?,
            rhs: Rhs::Plain(body?),
            wheres: Items::new(self.alloc),
        })
    }

    /// A constructor of a data type.
    #[tactic(auto, unfolding(crate::specs::PreludeTrees::Gives))]
    pub fn constructs(self, name: &[u8], fields: Built<Items<Written>>) -> Built<Constructor>
        ensures { (fs : List Written) → Gives fields fs → Gives result (constructor_named name.now fs) }
    {
        let name = self.name(name)?;
        Ok(Constructor {
            name,
            fields: fields?,
        })
    }

    /// A data type.
    #[tactic(auto, unfolding(crate::specs::PreludeTrees::Gives))]
    pub fn data_type(
        self,
        name: &[u8],
        params: Built<Items<Name>>,
        constructors: Built<Items<Constructor>>,
    ) -> Built<Items<Decl<Span>>>
        ensures { (ps : List (List ℕ)) (cs : List Constructor) → Gives params ps → Gives constructors cs → Gives result (data_named name.now ps cs) }
    {
        let data = DataDecl {
            name: self.name(name)?,
            params: params?,
            constructors: constructors?,
        };
        self.one(Ok(Decl::Data(NOWHERE, data)))
    }

    /// The side and the strength of operators.
    #[tactic(auto, unfolding(crate::specs::PreludeTrees::Gives))]
    pub fn strength(self, side: Side, strength: u32, names: Built<Items<Name>>) -> Built<Decl<Span>>
        ensures { (ns : List (List ℕ)) → Gives names ns → Gives result (strength_of side strength ns) }
    {
        Ok(Decl::Fixity(NOWHERE, side, strength, names?))
    }

    /// A function: its signature, then its clauses.
    #[tactic(auto, unfolding(crate::specs::PreludeTrees::Gives))]
    pub fn function(
        self,
        name: &[u8],
        written: Built<Written>,
        clauses: Built<Items<Alt<Span>>>,
    ) -> Built<Items<Decl<Span>>>
        ensures { (w : Written) (cs : List (Alt Span)) → Gives written w → Gives clauses cs → Gives result (function_named name.now w cs) }
    {
        let names = self.one(self.name(name))?;
        let signature = Decl::Sig(NOWHERE, names, written?);
        let clauses = Decl::Fun(NOWHERE, self.name(name)?, clauses?);
        self.two(Ok(signature), Ok(clauses))
    }
}
