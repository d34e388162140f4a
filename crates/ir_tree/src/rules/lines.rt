//! The rules and limits of each line.

ghost use Rattle.std.specs.Prelude.{◌≡◌, [], ℕ, List, length, not, slice_get, map};
ghost use Rattle.ir_tree.specs.declared.ir_type.IrType.{Token};
ghost use Rattle.std.specs.Option.{option_copied};
ghost use Rattle.ir_tree.specs.Rules.Checks.{noted, limit_at};
ghost use Rattle.ir_tree.specs.NodeTypes.Types.{widths_in};
ghost use Rattle.ir_tree.specs.Rules.Inner.Scopes.{seen_by};
ghost use Rattle.ir_tree.specs.Rules.Lines.{is_plain, is_among, type_limits, is_value_of, is_some_proc, package_checks, is_named_well, is_some_depth, depth_in, is_channel_typed, is_state, is_after_all, is_id_after, is_there, are_there, is_there_if, attributes_there, is_named, is_operand, are_only, is_first_part, is_token_of, is_start, follows, role_there, token_is, first_token_is, is_chained_role, is_chained, may_receive, may_send, is_free, is_at_end, is_literal_of, is_typed, own_levels, channel_checks, head_checks, node_checks, next_checks};

use crate::node_types::{
    bounded, constant_fits, leaves_of, levels_of, marks_of, same_type, width_of,
};
use crate::rules::checks::{note_limit, note_rule};
use crate::rules::fitting::{Scope, node_fits};
use crate::rules::names::is_name;
use crate::rules::rule;
use crate::{Attributes, Channel, Constant, Ends, IrType, Node, Operand, Proc, Role};
use delay_model::Op;
use xb_span::{Fault, Span, What};

/// What the nodes before leave: whether one of them is an `after_all`, the last site, and the ends of channels with a site.
#[derive(Drop)]
pub struct Seen {
    pub after_all: bool,
    pub site: Option<usize>,
    pub received: Vec<bool>,
    pub sent: Vec<bool>,
}

/// Whether a name has no `.` and no `/`.
pub fn is_plain(name: &str) -> bool
    ensures { result ≡ is_plain name.now }
{
    name.as_bytes()
        .iter()
        .all(|byte| *byte != b'.' && *byte != b'/')
}

/// The widths that a type has.
fn note_widths(held: Option<Fault>, end: u32, ty: &IrType) -> Option<Fault>
    ensures { result ≡ noted held (map (λ w. limit_at end What.Width w 128) (widths_in ty.now)) }
{
    match ty {
        IrType::Bits(width, _) => note_limit(held, end, What::Width, bounded(*width), 128),
        IrType::Token(_) => held,
        IrType::Tuple(parts, _) => {
            let mut held = held;
            'parts: for part in parts.as_slice() {
                held = note_widths(held, end, part);
            }
            held
        }
    }
}

/// The limits on a type, of which the outermost levels in `own` don't count.
fn note_type(held: Option<Fault>, end: u32, ty: &IrType, own: u64) -> Option<Fault>
    ensures { result ≡ noted held (type_limits end ty.now own) }
{
    let held = note_widths(held, end, ty);
    let held = note_limit(held, end, What::Leaves, leaves_of(ty), 256);
    let levels = levels_of(ty).saturating_sub(own);
    note_limit(held, end, What::Levels, levels, 64)
}

/// Whether the constant writes a value of the type, which has no token.
fn is_value_of(ty: &IrType, constant: &Constant) -> bool
    ensures { result ≡ is_value_of ty.now constant.now }
{
    !marks_of(ty).token && constant_fits(constant, ty)
}

/// `package NAME`, of these procs
pub fn note_package(held: Option<Fault>, span: Span, name: &str, procs: &[Proc]) -> Option<Fault>
    ensures { result ≡ noted held (package_checks span name.now procs.now) }
{
    let named = is_name(name) && (is_plain(name) && is_some_proc(procs));
    note_rule(held, span, rule::NODES_ARE_NAMED, !named)
}

fn is_some_proc(procs: &[Proc]) -> bool
    ensures { result ≡ is_some_proc procs.now }
{
    match procs {
        [] => false,
        [_, ..] => true,
    }
}

fn is_named_well(ends: Ends, name: &str) -> bool
    ensures { result ≡ is_named_well ends name.now }
{
    match ends {
        Ends::Input | Ends::Output => is_plain(name),
        Ends::Inner(_) => true,
    }
}

fn depth_in(ends: Ends) -> u128
    ensures { result ≡ depth_in ends }
{
    match ends {
        Ends::Input | Ends::Output => 0,
        Ends::Inner(depth) => depth,
    }
}

fn is_some_depth(ends: Ends) -> bool
    ensures { result ≡ is_some_depth ends }
{
    match ends {
        Ends::Input | Ends::Output => true,
        Ends::Inner(depth) => 0 < depth,
    }
}

fn is_channel_typed(channel: &Channel) -> bool
    ensures { result ≡ is_channel_typed channel.now }
{
    let marks = marks_of(&channel.ty);
    marks.sound && (marks.bits && (!marks.token && is_some_depth(channel.ends)))
}

/// A channel behind others. `is_new` says that none of them has its name, and `place` how many they are.
pub fn note_channel(
    held: Option<Fault>,
    span: Span,
    is_new: bool,
    place: usize,
    channel: &Channel,
) -> Option<Fault>
    ensures { (names : List (List ℕ)) → is_new ≡ not (is_among names channel.now.name) →
        result ≡ noted held (channel_checks span names place channel.now) }
{
    let name = channel.name.as_str();
    let named = is_new
        && (channel.id as usize == place && (is_name(name) && is_named_well(channel.ends, name)));
    let held = note_rule(held, span, rule::NODES_ARE_NAMED, !named);
    let held = note_rule(
        held,
        span,
        rule::TYPES_ARE_SOUND,
        !is_channel_typed(channel),
    );
    let held = note_limit(held, span.to, What::Word, width_of(&channel.ty), 128);
    let held = note_limit(
        held,
        span.to,
        What::Depth,
        bounded(depth_in(channel.ends)),
        4096,
    );
    note_type(held, span.to, &channel.ty, 0)
}

fn is_state(proc: &Proc) -> bool
    ensures { result ≡ is_state proc.now }
{
    marks_of(&proc.state).sound && is_value_of(&proc.state, &proc.init)
}

/// The head of a proc behind others. `is_new` says that none of them has its name.
pub fn note_head(held: Option<Fault>, span: Span, is_new: bool, proc: &Proc) -> Option<Fault>
    ensures { (names : List (List ℕ)) → is_new ≡ not (is_among names proc.now.name) →
        result ≡ noted held (head_checks span names proc.now) }
{
    let named = is_new && is_name(proc.name.as_str());
    let held = note_rule(held, span, rule::NODES_ARE_NAMED, !named);
    let held = note_rule(held, span, rule::TYPES_ARE_SOUND, !is_state(proc));
    note_type(held, span.to, &proc.state, 0)
}

/// Whether an id comes behind that of the node before.
fn is_id_after(previous: Option<&Node>, id: u32) -> bool
    ensures { result ≡ is_id_after (option_copied previous.entry) id }
{
    match previous {
        None => true,
        Some(node) => node.id < id,
    }
}

/// Whether an operand of the node of an index is there.
fn is_there(place: usize, operand: Operand) -> bool
    ensures { result ≡ is_there place operand }
{
    match operand {
        Operand::State => true,
        Operand::Node(other) => (other as usize) < place,
    }
}

fn are_there(place: usize, operands: &[Operand]) -> bool
    ensures { result ≡ are_there place operands.now }
{
    operands.iter().all(|operand| is_there(place, *operand))
}

fn is_there_if(place: usize, operand: Option<Operand>) -> bool
    ensures { result ≡ is_there_if place operand }
{
    match operand {
        None => true,
        Some(operand) => is_there(place, operand),
    }
}

fn attributes_there(place: usize, attributes: &Attributes) -> bool
    ensures { result ≡ attributes_there place attributes.now }
{
    match attributes {
        Attributes::Cases(cases, default) => are_there(place, cases.as_slice())
            && is_there_if(place, *default),
        Attributes::Indices(index) => is_there(place, *index),
        Attributes::Channel(predicate, _) => is_there_if(place, *predicate),
        _ => true,
    }
}

fn is_named(previous: Option<&Node>, place: usize, node: &Node) -> bool
    ensures { result ≡ is_named (option_copied previous.entry) place node.now }
{
    is_id_after(previous, node.id)
        && (are_there(place, node.operands.as_slice()) && attributes_there(place, &node.attributes))
}

fn is_operand(place: usize, operand: Operand) -> bool
    ensures { result ≡ is_operand place operand }
{
    match operand {
        Operand::State => false,
        Operand::Node(other) => other as usize == place,
    }
}

fn are_only(place: usize, operands: &[Operand]) -> bool
    ensures { result ≡ are_only place operands.now }
{
    match operands {
        [operand] => is_operand(place, *operand),
        _ => false,
    }
}

fn is_first_part(attributes: &Attributes) -> bool
    ensures { result ≡ is_first_part attributes.now }
{
    match attributes {
        Attributes::Index(index) => *index == 0,
        _ => false,
    }
}

/// Whether the node of an index is the token of the receive of another.
fn is_token_of(receive: usize, before: &[Node], place: u32) -> bool
    ensures { result ≡ is_token_of receive (slice_get before.now place) }
{
    match before.get(place as usize) {
        None => false,
        Some(node) => is_first_part(&node.attributes)
            && are_only(receive, node.operands.as_slice()),
    }
}

pub fn is_after_all(op: Op) -> bool
    ensures { result ≡ is_after_all op }
{
    match op {
        Op::AfterAll => true,
        _ => false,
    }
}

fn is_start(before: &[Node], place: u32) -> bool
    ensures { result ≡ is_start (slice_get before.now place) }
{
    match before.get(place as usize) {
        None => false,
        Some(node) => is_after_all(node.op),
    }
}

fn role_there(before: &[Node], place: usize) -> Role
    ensures { result ≡ role_there (slice_get before.now place) }
{
    match before.get(place) {
        None => Role::Pure,
        Some(node) => node.role(),
    }
}

/// Whether the token of a site is that of the last one.
fn follows(before: &[Node], last: usize, role: Role, place: u32) -> bool
    ensures { result ≡ follows before.now last role place }
{
    match role {
        Role::Pure => false,
        Role::Receive(_, _) => is_token_of(last, before, place),
        Role::Send(_, _) => place as usize == last,
    }
}

fn token_is(before: &[Node], last: Option<usize>, place: u32) -> bool
    ensures { result ≡ token_is before.now last place }
{
    match last {
        None => is_start(before, place),
        Some(last) => follows(before, last, role_there(before, last), place),
    }
}

fn first_token_is(before: &[Node], last: Option<usize>, operands: &[Operand]) -> bool
    ensures { result ≡ first_token_is before.now last operands.now }
{
    match operands {
        [] => false,
        [operand, ..] => match operand {
            Operand::State => false,
            Operand::Node(place) => token_is(before, last, *place),
        },
    }
}

fn is_chained_role(before: &[Node], last: Option<usize>, operands: &[Operand], role: Role) -> bool
    ensures { result ≡ is_chained_role before.now last operands.now role }
{
    match role {
        Role::Pure => true,
        Role::Receive(_, _) => first_token_is(before, last, operands),
        Role::Send(_, _) => first_token_is(before, last, operands),
    }
}

fn is_chained(before: &[Node], seen: &Seen, node: &Node) -> bool
    ensures { result ≡ is_chained before.now (seen_by seen.now) node.now }
{
    !(is_after_all(node.op) && seen.after_all)
        && is_chained_role(before, seen.site, node.operands.as_slice(), node.role())
}

fn may_receive(channels: &[Channel], channel: u32) -> bool
    ensures { result ≡ may_receive (slice_get channels.now channel) }
{
    match channels.get(channel as usize) {
        None => false,
        Some(channel) => match channel.ends {
            Ends::Input => true,
            Ends::Output => false,
            Ends::Inner(_) => true,
        },
    }
}

fn may_send(channels: &[Channel], channel: u32) -> bool
    ensures { result ≡ may_send (slice_get channels.now channel) }
{
    match channels.get(channel as usize) {
        None => false,
        Some(channel) => match channel.ends {
            Ends::Input => false,
            Ends::Output => true,
            Ends::Inner(_) => true,
        },
    }
}

fn is_free(taken: &[bool], channel: u32) -> bool
    ensures { result ≡ is_free taken.now channel }
{
    match taken.get(channel as usize) {
        None => true,
        Some(is_taken) => !*is_taken,
    }
}

fn is_at_end(channels: &[Channel], seen: &Seen, role: Role) -> bool
    ensures { result ≡ is_at_end channels.now (seen_by seen.now) role }
{
    match role {
        Role::Pure => true,
        Role::Receive(_, channel) => may_receive(channels, channel)
            && is_free(seen.received.as_slice(), channel),
        Role::Send(_, channel) => may_send(channels, channel)
            && is_free(seen.sent.as_slice(), channel),
    }
}

fn is_literal_of(ty: &IrType, attributes: &Attributes) -> bool
    ensures { result ≡ is_literal_of ty.now attributes.now }
{
    match attributes {
        Attributes::Value(constant) => is_value_of(ty, constant),
        _ => true,
    }
}

fn is_typed(node: &Node) -> bool
    ensures { result ≡ is_typed node.now }
{
    marks_of(&node.ty).sound && is_literal_of(&node.ty, &node.attributes)
}

/// A receive's own pair isn't counted among its levels.
fn own_levels(role: Role) -> u64
    ensures { result ≡ own_levels role }
{
    match role {
        Role::Pure => 0,
        Role::Receive(_, _) => 1,
        Role::Send(_, _) => 0,
    }
}

/// The checks of a node, behind those before, with what was seen of them.
pub fn note_node(
    held: Option<Fault>,
    span: Span,
    channels: &[Channel],
    scope: &Scope,
    seen: &Seen,
    node: &Node,
) -> Option<Fault>
    requires missing { scope.now.missing.now ≡ Token [] }
    ensures { result ≡ noted held (node_checks channels.now scope.now.state.now scope.now.before.now span (length scope.now.before.now) (seen_by seen.now) node.now) }
{
    let before = scope.before;
    let place = before.len();
    let previous = before.get(before.len().saturating_sub(1));
    let role = node.role();
    let held = note_rule(
        held,
        span,
        rule::NODES_ARE_NAMED,
        !is_named(previous, place, node),
    );
    let held = note_rule(
        held,
        span,
        rule::NODE_FITS_TABLE,
        !node_fits(channels, scope, node),
    );
    let held = note_rule(
        held,
        span,
        rule::TOKENS_ARE_CHAINED,
        !is_chained(before, seen, node),
    );
    let held = note_rule(
        held,
        span,
        rule::SITE_FITS_CHANNEL,
        !is_at_end(channels, seen, role),
    );
    let held = note_rule(held, span, rule::TYPES_ARE_SOUND, !is_typed(node));
    note_type(held, span.to, &node.ty, own_levels(role))
}

/// `next(..)`
pub fn note_next(held: Option<Fault>, span: Span, scope: &Scope, proc: &Proc) -> Option<Fault>
    requires missing { scope.now.missing.now ≡ Token [] }
    requires state { scope.now.state.now ≡ proc.now.state }
    requires before { scope.now.before.now ≡ proc.now.nodes }
    ensures { result ≡ noted held (next_checks span proc.now) }
{
    let place = scope.before.len();
    let held = note_rule(
        held,
        span,
        rule::NODES_ARE_NAMED,
        !is_there(place, proc.next),
    );
    let same = same_type(scope.state, scope.type_of(proc.next));
    note_rule(held, span, rule::TYPES_ARE_SOUND, !same)
}
