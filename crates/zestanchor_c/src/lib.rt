// The library for C and Rust: it exports the one function on bytes.
#![tactic(auto)]

ghost use Rattle.zestanchor.specs.Tasks.{Done};

// Writes what the task gives at the start of the output, and returns its length; 0 where there is no room for it.
#[unsafe(no_mangle)]
pub extern "C" fn zestanchor(task: u8, input: &[u8], output: &mut [u8]) -> usize
    ensures { Done task input.now output.old output.new result }
{
    zestanchor::zestanchor(task, input, output)
}
