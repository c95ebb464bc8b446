// The law of the whole: the contract of a function that does nothing, for callers to cite.
ghost use Rattle.explicit_form.specs.Right.{CompiledLaw};

use register_machine::{code_law, machine_law, spellable_law, static_law};
use rw_lex::one_token_list;
use vh_tree_reading::one_design_for_a_text;
use vh_tree_spelling::spellable_designs_are_spelled;

/// What a source of the explicit form is compiled to is right: the text spells exactly one design, which keeps the
/// static rules, and its ports have the widths of the input and the output type. For every list of inputs and every
/// order of the processes the bench on this design is quiet after at most four delta cycles of each change, and
/// reads the encodings of the source's outputs (IEEE Std 1076-1993, section 12.6.4).
pub fn compiled_law()
    ensures { CompiledLaw }
{
    machine_law();
    static_law();
    spellable_law();
    code_law();
    spellable_designs_are_spelled();
    one_design_for_a_text();
    one_token_list();
}
