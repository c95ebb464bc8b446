// Reads the tree of the explicit form, by descent with one token of lookahead. The grammar rule stands above each
// function; `C` is a constructor token and `v` a variable token.
ghost use Rattle.std.specs.Prelude.{◌≡◌, ◌++◌, ◌∷◌, [], OnOk};
ghost use Rattle.explicit_form.specs.Words.{words_of};
ghost use Rattle.explicit_form.specs.Read as reads;
ghost use Rattle.rw_base.specs.Answers.{Gives};

use crate::form::{Arm, Data, Form, Function, Ports};
use crate::words::{after, name, rest_of, sees};
use rw_base::{Name, NotSpelled, OutOfMemory, Unread};
use rw_lex::{Token, TokenKind};
use sqlite_items::Items;
use std::alloc::Global;

// C (`|` C)*
#[tactic(auto, unfolding(crate::specs::Read::constructors_at))]
fn read_constructors(alloc: Global, tokens: &[Token]) -> Result<(Items<Name>, &[Token]), Unread>
    ensures { Gives (λ x. (x.0, words_of x.1.now)) result (reads.constructors_at (words_of tokens.now)) }
{
    let mut all = Items::new(alloc);
    let mut rest = tokens;
    for _turn in 0..tokens.len() {
        let (one, behind) = name(rest, TokenKind::Constructor)?;
        add(&mut all, one.copied(alloc)?)?;
        if !sees(behind, TokenKind::Operator, b"|") {
            return Ok((all, behind));
        }
        rest = rest_of(behind);
    }
    Err(Unread::Refused(NotSpelled))
}

// One item more.
fn add<T: Drop>(items: &mut Items<T>, item: T) -> Result<(), OutOfMemory>
    ensures { OnOk result (items.new ≡ items.old ++ item ∷ []) }
{
    items.push(item)?;
    Ok(())
}

// data ::= `data` C `=` C (`|` C)* `;`
#[tactic(auto, unfolding(crate::specs::Read::data_at))]
fn read_data(alloc: Global, tokens: &[Token]) -> Result<(Data, &[Token]), Unread>
    ensures { Gives (λ x. (x.0, words_of x.1.now)) result (reads.data_at (words_of tokens.now)) }
{
    let rest = after(tokens, TokenKind::Keyword, b"data")?;
    let (declared, rest) = name(rest, TokenKind::Constructor)?;
    let rest = after(rest, TokenKind::Operator, b"=")?;
    let (constructors, rest) = read_constructors(alloc, rest)?;
    let rest = after(rest, TokenKind::Special, b";")?;
    let name = declared.copied(alloc)?;
    Ok((Data { name, constructors }, rest))
}

// data*
#[tactic(auto, unfolding(crate::specs::Read::datas_at))]
fn read_datas(alloc: Global, tokens: &[Token]) -> Result<(Items<Data>, &[Token]), Unread>
    ensures { Gives (λ x. (x.0, words_of x.1.now)) result (reads.datas_at (words_of tokens.now)) }
{
    let mut all = Items::new(alloc);
    let mut rest = tokens;
    for _turn in 0..tokens.len() {
        if !sees(rest, TokenKind::Keyword, b"data") {
            break;
        }
        let (one, behind) = read_data(alloc, rest)?;
        add(&mut all, one)?;
        rest = behind;
    }
    Ok((all, rest))
}

// `I ( )`
#[tactic(auto, unfolding(crate::specs::Read::unit_at))]
fn read_unit(tokens: &[Token]) -> Result<&[Token], Unread>
    ensures { Gives (λ r. words_of r.now) result (reads.unit_at (words_of tokens.now)) }
{
    let rest = after(tokens, TokenKind::Constructor, b"I")?;
    let rest = after(rest, TokenKind::Special, b"(")?;
    after(rest, TokenKind::Special, b")")
}

// ty ::= `ReT` C C `I ( )`
#[tactic(auto, unfolding(crate::specs::Read::ports_at))]
fn read_ports(alloc: Global, tokens: &[Token]) -> Result<(Ports, &[Token]), Unread>
    ensures { Gives (λ x. (x.0, words_of x.1.now)) result (reads.ports_at (words_of tokens.now)) }
{
    let rest = after(tokens, TokenKind::Constructor, b"ReT")?;
    let (first, rest) = name(rest, TokenKind::Constructor)?;
    let (second, rest) = name(rest, TokenKind::Constructor)?;
    let rest = read_unit(rest)?;
    let input = first.copied(alloc)?;
    let output = second.copied(alloc)?;
    Ok((Ports { input, output }, rest))
}

// The same type again.
#[tactic(auto, unfolding(crate::specs::Read::type_at))]
fn read_type<'a>(ports: &Ports, tokens: &'a [Token]) -> Result<&'a [Token], Unread>
    ensures { Gives (λ r. words_of r.now) result (reads.type_at ports.now (words_of tokens.now)) }
{
    let rest = after(tokens, TokenKind::Constructor, b"ReT")?;
    let rest = after(rest, TokenKind::Constructor, ports.input.as_slice())?;
    let rest = after(rest, TokenKind::Constructor, ports.output.as_slice())?;
    read_unit(rest)
}

// `;` v `=`, for this v
#[tactic(auto, unfolding(crate::specs::Read::binding_at))]
fn read_binding<'a>(bound: &[u8], tokens: &'a [Token]) -> Result<&'a [Token], Unread>
    ensures { Gives (λ r. words_of r.now) result (reads.binding_at bound.now (words_of tokens.now)) }
{
    let rest = after(tokens, TokenKind::Special, b";")?;
    let rest = after(rest, TokenKind::Variable, bound)?;
    after(rest, TokenKind::Operator, b"=")
}

// `start ::` ty `; start =` v
#[tactic(auto, unfolding(crate::specs::Read::start_at))]
fn read_start(alloc: Global, tokens: &[Token]) -> Result<(Ports, Name, &[Token]), Unread>
    ensures { Gives (λ x. ((x.0, x.1), words_of x.2.now)) result (reads.start_at (words_of tokens.now)) }
{
    let rest = after(tokens, TokenKind::Variable, b"start")?;
    let rest = after(rest, TokenKind::Operator, b"::")?;
    let (ports, rest) = read_ports(alloc, rest)?;
    let rest = read_binding(b"start", rest)?;
    let (start, rest) = name(rest, TokenKind::Variable)?;
    Ok((ports, start.copied(alloc)?, rest))
}

// C `->` v
#[tactic(auto, unfolding(crate::specs::Read::arm_at))]
fn read_arm(alloc: Global, tokens: &[Token]) -> Result<(Arm, &[Token]), Unread>
    ensures { Gives (λ x. (x.0, words_of x.1.now)) result (reads.arm_at (words_of tokens.now)) }
{
    let (input, rest) = name(tokens, TokenKind::Constructor)?;
    let rest = after(rest, TokenKind::Operator, b"->")?;
    let (next, rest) = name(rest, TokenKind::Variable)?;
    let constructor = input.copied(alloc)?;
    let target = next.copied(alloc)?;
    Ok((
        Arm {
            constructor,
            target,
        },
        rest,
    ))
}

// C `->` v (`;` C `->` v)*
#[tactic(auto, unfolding(crate::specs::Read::arms_at))]
fn read_arms(alloc: Global, tokens: &[Token]) -> Result<(Items<Arm>, &[Token]), Unread>
    ensures { Gives (λ x. (x.0, words_of x.1.now)) result (reads.arms_at (words_of tokens.now)) }
{
    let mut all = Items::new(alloc);
    let mut rest = tokens;
    for _turn in 0..tokens.len() {
        let (one, behind) = read_arm(alloc, rest)?;
        add(&mut all, one)?;
        if !sees(behind, TokenKind::Special, b";") {
            return Ok((all, behind));
        }
        rest = rest_of(behind);
    }
    Err(Unread::Refused(NotSpelled))
}

// `;` v `::` ty `;` v `=`
#[tactic(auto, unfolding(crate::specs::Read::signature_at))]
fn read_signature<'a>(ports: &Ports, tokens: &'a [Token]) -> Result<(&'a Name, &'a [Token]), Unread>
    ensures { Gives (λ x. (x.0.now, words_of x.1.now)) result (reads.signature_at ports.now (words_of tokens.now)) }
{
    let rest = after(tokens, TokenKind::Special, b";")?;
    let (declared, rest) = name(rest, TokenKind::Variable)?;
    let rest = after(rest, TokenKind::Operator, b"::")?;
    let rest = read_type(ports, rest)?;
    let rest = read_binding(declared.as_slice(), rest)?;
    Ok((declared, rest))
}

// `signal` C
#[tactic(auto, unfolding(crate::specs::Read::signal_at))]
fn read_signal(tokens: &[Token]) -> Result<(&Name, &[Token]), Unread>
    ensures { Gives (λ x. (x.0.now, words_of x.1.now)) result (reads.signal_at (words_of tokens.now)) }
{
    let rest = after(tokens, TokenKind::Variable, b"signal")?;
    name(rest, TokenKind::Constructor)
}

// `>>= \` v `->`
#[tactic(auto, unfolding(crate::specs::Read::lambda_at))]
fn read_lambda(tokens: &[Token]) -> Result<(&Name, &[Token]), Unread>
    ensures { Gives (λ x. (x.0.now, words_of x.1.now)) result (reads.lambda_at (words_of tokens.now)) }
{
    let rest = after(tokens, TokenKind::Operator, b">>=")?;
    let rest = after(rest, TokenKind::Operator, b"\\")?;
    let (bound, rest) = name(rest, TokenKind::Variable)?;
    let rest = after(rest, TokenKind::Operator, b"->")?;
    Ok((bound, rest))
}

// `case` v `of {`, for this v
#[tactic(auto, unfolding(crate::specs::Read::case_at))]
fn read_case<'a>(bound: &[u8], tokens: &'a [Token]) -> Result<&'a [Token], Unread>
    ensures { Gives (λ r. words_of r.now) result (reads.case_at bound.now (words_of tokens.now)) }
{
    let rest = after(tokens, TokenKind::Keyword, b"case")?;
    let rest = after(rest, TokenKind::Variable, bound)?;
    let rest = after(rest, TokenKind::Keyword, b"of")?;
    after(rest, TokenKind::Special, b"{")
}

// `>>= \` v `-> case` v `of {` arms `}`
#[tactic(auto, unfolding(crate::specs::Read::choice_at))]
fn read_choice(alloc: Global, tokens: &[Token]) -> Result<(Name, Items<Arm>, &[Token]), Unread>
    ensures { Gives (λ x. ((x.0, x.1), words_of x.2.now)) result (reads.choice_at (words_of tokens.now)) }
{
    let (bound, rest) = read_lambda(tokens)?;
    let rest = read_case(bound.as_slice(), rest)?;
    let (arms, rest) = read_arms(alloc, rest)?;
    let rest = after(rest, TokenKind::Special, b"}")?;
    Ok((bound.copied(alloc)?, arms, rest))
}

// `;` v `::` ty `;` v `= signal` C `>>= \` v `-> case` v `of {` arms `}`
#[tactic(auto, unfolding(crate::specs::Read::function_at))]
fn read_function<'a>(
    alloc: Global,
    ports: &Ports,
    tokens: &'a [Token],
) -> Result<(Function, &'a [Token]), Unread>
    ensures { Gives (λ x. (x.0, words_of x.1.now)) result (reads.function_at ports.now (words_of tokens.now)) }
{
    let (declared, rest) = read_signature(ports, tokens)?;
    let (output, rest) = read_signal(rest)?;
    let (bound, arms, rest) = read_choice(alloc, rest)?;
    let name = declared.copied(alloc)?;
    let shown = output.copied(alloc)?;
    Ok((
        Function {
            name,
            shown,
            bound,
            arms,
        },
        rest,
    ))
}

// function*
#[tactic(auto, unfolding(crate::specs::Read::functions_at))]
fn read_functions<'a>(
    alloc: Global,
    ports: &Ports,
    tokens: &'a [Token],
) -> Result<(Items<Function>, &'a [Token]), Unread>
    ensures { Gives (λ x. (x.0, words_of x.1.now)) result (reads.functions_at ports.now (words_of tokens.now)) }
{
    let mut all = Items::new(alloc);
    let mut rest = tokens;
    for _turn in 0..tokens.len() {
        if !sees(rest, TokenKind::Special, b";") {
            break;
        }
        let (one, behind) = read_function(alloc, ports, rest)?;
        add(&mut all, one)?;
        rest = behind;
    }
    Ok((all, rest))
}

// Behind all: no token is left, and there is a function.
fn ended(form: Form, tokens: &[Token]) -> Result<Form, Unread>
    ensures { Gives (λ x. x) result (reads.if_ended form (words_of tokens.now)) }
{
    if tokens.is_empty() && 0 < form.functions.len() {
        Ok(form)
    } else {
        Err(Unread::Refused(NotSpelled))
    }
}

// `{` data* `start ::` ty `; start =` v function+ `}`
#[tactic(auto, unfolding(crate::specs::Read::form_at))]
pub fn read_form(alloc: Global, tokens: &[Token]) -> Result<Form, Unread>
    ensures { Gives (λ x. x) result (reads.form_at (words_of tokens.now)) }
{
    let rest = after(tokens, TokenKind::Special, b"{")?;
    let (datas, rest) = read_datas(alloc, rest)?;
    let (ports, start, rest) = read_start(alloc, rest)?;
    let (functions, rest) = read_functions(alloc, &ports, rest)?;
    let rest = after(rest, TokenKind::Special, b"}")?;
    ended(
        Form {
            datas,
            ports,
            start,
            functions,
        },
        rest,
    )
}
