//! Jobs, as the memo core runs them.

ghost use Rattle.std.specs.Prelude.{◌≡◌, ◌<◌, ◌≤◌, ◌∷◌, ◌++◌, [], IfOk, List, length, map, slice_index};
ghost use Rattle.std.specs.List.{zip};
ghost use Rattle.memo_core.specs.declared.keys.Key.{Key};
ghost use Rattle.memo_core.specs.declared.keys.Node.{Node};
ghost use Rattle.memo_core.specs.Graph.{named_values};
ghost use Rattle.bench_parts.specs.Equal.{same_content};
ghost use Rattle.bench_parts.specs.States.{makes};

use bench_values::{Given, NodeValue, run_node};
use memo_core::keys::Output;
use std::alloc::{AllocError, Global};

// Adds a value as the next output, which goes by the next of these numbers, if there is one.
fn put_output(
    outputs: &mut Vec<Output<NodeValue>>,
    names: &[u64],
    value: NodeValue,
) -> Result<(), AllocError>
    ensures named { let at = length outputs.old.items in
        at < length names.now
        → IfOk result (λ _. named_values outputs.new.items
        ≡ named_values outputs.old.items ++ (slice_index names.now at, value) ∷ []) }
    ensures past { length names.now ≤ length outputs.old.items
        → IfOk result (λ _. outputs.new.items ≡ outputs.old.items) }
{
    let at = outputs.len();
    if at < names.len() {
        let name = names[at];
        let stamp = 0;
        outputs.push(Output { name, stamp, value })?;
    }
    Ok(())
}

// Outputs of these values, which go by these numbers, without stamps.
fn outputs_of(
    alloc: Global,
    names: &[u64],
    values: Vec<NodeValue>,
) -> Result<Vec<Output<NodeValue>>, AllocError>
    ensures { IfOk result (λ outputs. named_values outputs.items ≡ zip names.now values.items) }
{
    let mut outputs = Vec::with_capacity(alloc, values.len())?;
    for value in values {
        put_output(&mut outputs, names, value)?;
    }
    Ok(outputs)
}

/// The outputs of a node, from what it is given and from the values of the nodes that it uses, in
/// the order of its inputs. Those of a group go by the numbers of its names in its history, each
/// other one by 0. Errors: out of memory.
pub fn run(
    alloc: Global,
    given: &Given,
    values: &[&NodeValue],
) -> Result<Vec<Output<NodeValue>>, AllocError>
    ensures { (node : Node) (keys : List Key)
        → IfOk result (λ outputs. makes node given.now keys (map (λ v. v.now) values.now)
        (named_values outputs.items)) }
{
    let names = given.output_names(alloc)?;
    let made = run_node(alloc, given, values)?;
    outputs_of(alloc, &names, made)
}

/// Whether two values are equal, exactly. It takes no memory.
pub fn is_same(a: &NodeValue, b: &NodeValue) -> bool
    ensures { result ≡ same_content a.now b.now }
{
    a.is_same(b)
}
