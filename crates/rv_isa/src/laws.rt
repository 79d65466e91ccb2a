//! Laws of the table. Each function's contract is the law; its body is empty.
ghost use Rattle.rv_isa.specs.TableLaws.{EachOperationIsListed, FunctionsOfTheTable, OneInstructionPerWord, OneRowPerWord, OneWordPerInstruction, RangesByField};

/// Each operation is in the table.
pub fn each_operation_is_listed()
    ensures { EachOperationIsListed }
{}

/// No word matches two rows.
pub fn one_row_per_word()
    ensures { OneRowPerWord }
{}

/// No word is two instructions.
pub fn one_instruction_per_word()
    ensures { OneInstructionPerWord }
{}

/// No instruction has two words.
pub fn one_word_per_instruction()
    ensures { OneWordPerInstruction }
{}

/// The functions by which definitions above name an operation, an instruction and a word are the table's.
pub fn functions_of_the_table()
    ensures { FunctionsOfTheTable }
{}

/// Operands are in range where each of them is.
pub fn ranges_by_field()
    ensures { RangesByField }
{}
