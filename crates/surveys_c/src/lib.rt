// Survey for host programs, as a static library: its symbol, over the crate `surveys`.
#![tactic(auto)]

ghost use Rattle.std.specs.Prelude.{◌≡◌, drop};
ghost use Rattle.surveys.specs.Hosts.{Survey};

use std::alloc::Global;

// C: uint32_t survey(const uint8_t *file, size_t file_len, uint32_t rounds, uint32_t b, uint8_t *out, size_t out_len);
#[unsafe(no_mangle)]
pub extern "C" fn survey(heap: Global, file: &[u8], rounds: u32, b: u32, out: &mut [u8]) -> u32
    ensures told { Survey file.now rounds b result out.new out.old }
    ensures rest { drop 12 out.new ≡ drop 12 out.old }
{
    surveys::host::survey(heap, file, rounds, b, out)
}
