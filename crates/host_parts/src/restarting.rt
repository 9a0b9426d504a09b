//! Nodes that restart.

ghost use Rattle.std.specs.Prelude.{◌≡◌, length};
ghost use Rattle.host_model.specs.Opening.{restarting};

use host_node::Nodes;
use zw_base::read_node;

/// The numbers 0 to 232; no node has number 0.
const NUMBERS: u8 = 233;

/// Each node restarts.
pub fn restart_all(nodes: &mut Nodes)
    requires { length nodes.old ≡ 233 }
    ensures { nodes.new ≡ restarting nodes.old }
{
    for number in 1..NUMBERS {
        let node = read_node(number).unwrap();
        nodes.restart(node);
    }
}
