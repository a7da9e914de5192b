ghost use Rattle.std.specs.Prelude.{◌≡◌};
ghost use Rattle.std.specs.List.{list_all};
ghost use Rattle.aol_expr_tree.specs.Meaning.{holds};
ghost use Rattle.aol_expr_tree.specs.declared.value.Val.TheVariants.{Bad};
ghost use Rattle.aol_flat.specs.InstanceValue.{all_hold, in_width};

use aol_expr_tree::{Kind, Port, Site, Val, Width};

/// Whether the width holds each number.
fn all_within(width: Width, nums: &[i64]) -> bool
    ensures { result ≡ list_all (holds width) nums.now }
{
    nums.iter().all(|number| width.holds(*number))
}

/// Whether the numbers of each input are held by the width of its port.
///
/// `nums` has the numbers one port after another, each port's in order of rank. A port with no width holds every number.
#[tactic(auto, using(std::proofs::lemmas::List::take_min, std::proofs::lemmas::List::drop_min))]
pub fn inputs_hold(ports: &[Port], widths: &[Width], nums: &[i64]) -> bool
    ensures { result ≡ all_hold ports.now widths.now nums.now }
{
    match (ports.split_first(), widths.split_first()) {
        (Some((port, ports)), Some((width, widths))) => {
            let count = (port.shape.size() as usize).min(nums.len());
            all_within(*width, &nums[..count]) && inputs_hold(ports, widths, &nums[count..])
        }
        _ => true,
    }
}

/// The value of an output element, by that of its expression: the number where the port's width holds it, else a fault there.
///
/// `task` is a number among the elementary tasks, `port` one among the task's outputs, and `point` the rank of the element.
pub fn output_value(value: Result<i64, Kind>, width: Width, task: u32, port: u32, point: u32) -> Val
    ensures { result ≡ in_width width (λ kind. Bad (record { kind = kind; task = task; port = port; point = point })) value }
{
    let kind = match value {
        Ok(number) if width.holds(number) => return Val::Num(number),
        Ok(_) => Kind::Range,
        Err(kind) => kind,
    };
    Val::Bad(Site {
        kind,
        task,
        port,
        point,
    })
}
