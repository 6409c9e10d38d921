// The compiler: a rule's tables and a pool of registers to code. 01-scope.md; source document 001.
#![tactic(auto)]

mod code;
mod construct;
mod emission;
mod need;
mod pool;
mod size;
mod tables;

ghost use Rattle.std.specs.Prelude.{◌≡◌, ◌+◌, ◌-◌, ◌*◌, ◌<◌, ◌≤◌, length};
ghost use Rattle.instruction.specs.Instruction.{assemble};
ghost use Rattle.refusal.specs.Refusal.{verdict_of, laid_over};
ghost use Rattle.rule.specs.Table.{node_rows, binding_of, com_at, program};
ghost use Rattle.compiler.specs.Pool.{registers_of};
ghost use Rattle.compiler.specs.Compile.{need_com, size_com, t_prog};
ghost use Rattle.compiler.specs.Answer.{compile_said, pool_bit, enough, room_for, need as need_of, instructions as instructions_of, rest, said_as, buffer_as, compiled, leaves};
ghost use Rattle.compiler.specs.Inside.{ComRow};

use crate::code::Code;
use crate::pool::Pool;
use crate::tables::Tables;
use instruction::Operation;
use refusal::Refusal;
use rule::NODE_WORDS;

// What is returned of a rule that is accepted.
#[derive(Clone, Copy, Debug, PartialEq, Eq)]
pub struct Accepted {
    pub instructions: u32,
    pub cells: u32,
    pub need: u32,
}

// Refusal 3.
#[tactic(auto, unfolding(crate::specs::Answer::pool_bit))]
fn check_pool(pool: u64) -> Result<(), Refusal>
    ensures { verdict_of result ≡ pool_bit pool }
{
    if pool % 2 == 1 {
        return Err(Refusal::Pool);
    }
    Ok(())
}

// Refusal 11.
#[tactic(auto, unfolding(crate::specs::Answer::enough))]
fn check_registers(need: u32, pool: Pool) -> Result<(), Refusal>
    ensures { verdict_of result ≡ enough need (length (registers_of pool.bits)) }
{
    if pool.count() < need {
        return Err(Refusal::Registers(need));
    }
    Ok(())
}

// Refusal 12.
#[tactic(auto, unfolding(crate::specs::Answer::room_for))]
fn check_room(instructions: u32, words: usize) -> Result<(), Refusal>
    ensures { verdict_of result ≡ room_for instructions words }
{
    if words / 4 < instructions as usize {
        return Err(Refusal::Room(instructions));
    }
    Ok(())
}

// The code of the last row's command, with the halt behind it, at the front of the buffer.
#[tactic(auto, using(crate::proofs::Sizes::size_com_lem, crate::proofs::Emitting::put_append, crate::proofs::Answers::program_laid), unfolding(crate::specs::Compile::t_prog))]
fn lay(tables: &Tables, row: usize, pool: Pool, code: &mut [u32])
    requires com_row { ComRow tables.now.nodes.now row }
    requires registers { need_com (binding_of tables.now.declarations.now) (com_at tables.now.nodes.now row) ≤ length (registers_of pool.bits) }
    requires room { (size_com (binding_of tables.now.declarations.now) (com_at tables.now.nodes.now row) + 1) * 4 ≤ length code.old }
    requires row_bound { size_com (binding_of tables.now.declarations.now) (com_at tables.now.nodes.now row) < 65536 }
    ensures { code.new ≡ laid_over (assemble (t_prog (binding_of tables.now.declarations.now) (com_at tables.now.nodes.now row) (registers_of pool.bits))) code.old }
{
    let mut laid = Code { words: code, at: 0 };
    tables.emit_com(row, pool, &mut laid);
    laid.put(Operation::Halt, 0, 0, 0);
}

// Refusals 11 and 12, and the program's code in the buffer where there is none.
#[tactic(auto, using(crate::proofs::Answers::enough_passes, crate::proofs::Answers::room_passes))]
fn generate(tables: &Tables, cells: u32, pool: Pool, code: &mut [u32]) -> Result<Accepted, Refusal>
    requires some { 0 < node_rows tables.now.nodes.now }
    requires com_row { ComRow tables.now.nodes.now (node_rows tables.now.nodes.now - 1) }
    requires row_bound { instructions_of tables.now.declarations.now tables.now.nodes.now < 65536 }
    ensures answer { compile_said result ≡ said_as (instructions_of tables.now.declarations.now tables.now.nodes.now) cells (need_of tables.now.declarations.now tables.now.nodes.now) (rest tables.now.declarations.now tables.now.nodes.now pool.bits (length code.old)) }
    ensures buffer { code.new ≡ buffer_as (assemble (t_prog (binding_of tables.now.declarations.now) (program tables.now.nodes.now) (registers_of pool.bits))) code.old (compile_said result) }
{
    let row = tables.nodes.len() / NODE_WORDS - 1;
    let need = tables.need_com(row);
    check_registers(need, pool)?;
    let instructions = tables.size_com(row) + 1;
    check_room(instructions, code.len())?;
    lay(tables, row, pool, code);
    Ok(Accepted {
        instructions,
        cells,
        need,
    })
}

// Compiles a rule: the answer, and the code at the front of the buffer where it is accepted.
pub fn compile(
    declarations: &[u32],
    nodes: &[u32],
    pool: u64,
    code: &mut [u32],
) -> Result<Accepted, Refusal>
    ensures answer { compile_said result ≡ compiled declarations.now nodes.now pool (length code.old) }
    ensures buffer { code.new ≡ leaves declarations.now nodes.now pool code.old }
{
    rule::check_words(nodes.len(), declarations.len())?;
    check_pool(pool)?;
    let layout = rule::lay_out(declarations)?;
    rule::check_rows(declarations, nodes)?;
    let tables = Tables {
        declarations,
        nodes,
        bases: &layout.bases,
    };
    generate(&tables, layout.cells, Pool { bits: pool }, code)
}
