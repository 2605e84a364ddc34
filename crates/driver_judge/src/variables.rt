//! What the variables of a log stand for, and the calls of its lines in our numbers.
ghost use Rattle.std.specs.Prelude.{◌≡◌, ◌<◌, ◌≤◌, [], ◌∷◌, ◌++◌, Some, All, drop, length, pos, slice_index_or, slice_set, IfOk, IfSome, OnOk};
ghost use Rattle.std.specs.List.{list_any};
ghost use Rattle.egl_calls.specs.declared.kinds.Kind.{Kind as CallKind};
ghost use Rattle.egl_calls.specs.Ranges.{AreArguments, IsNumber};
ghost use Rattle.trace_model.specs.Resolve.{put_arguments, put_items, reference_value, resolved_by};
ghost use Rattle.driver_judge.specs.Configs.{our_list, our_value};
ghost use Rattle.driver_judge.specs.Variables.{IsItem, in_our_configs, is_config_place, is_foreign, item_at, kept, lost, lost_in, names_config, our_call, stands_for, variable_at, with_config, with_list, with_our_configs};

use crate::calls::{lists_configs, takes_config};
use crate::configs::ConfigMap;
use egl_calls::places::CONFIG;
use egl_calls::{Call, List, NoMemory, Numbers, set_argument};
use std::alloc::Global;
use std::marker::Model;
use trace_reader::{Line, Reference};

/// What a variable stands for: our value, and for each number of a list our number, where there is one. It is lost where we have no answer that the driver's stands beside: then with the line that is at fault.
pub struct Variable {
    value: i64,
    list: List<Option<i64>>,
    lost: Option<u64>,
}

// Written out, so that no crate above proves the drops of what it owns.
impl Drop for Variable {
    fn drop(self) {
        let Variable {
            value: _,
            list: _,
            lost: _,
        } = self;
    }
}

impl Model for Variable {
    ghost use Rattle.std.specs.Prelude.{All};
    ghost use Rattle.egl_calls.specs.Ranges.{IsNumber};
    ghost use Rattle.driver_judge.specs.Variables.{IsItem, VariableValue};

    ghost Value = { VariableValue };

    ghost view = { λ v. record { value = v.value; list = v.list; lost = v.lost } };

    ghost invariant = { λ v. IsNumber v.value × All IsItem v.list };
}

impl Variable {
    /// One that stands for our answer.
    pub fn kept(value: i64, list: List<Option<i64>>) -> Variable
        requires value { IsNumber value }
        requires list { All IsItem list }
        ensures { result ≡ kept value list }
    {
        Variable {
            value,
            list,
            lost: None,
        }
    }

    /// One that is lost with a line.
    pub fn lost(alloc: Global, line: u64) -> Variable
        ensures { result ≡ lost line }
    {
        Variable {
            value: 0,
            list: List::new(alloc),
            lost: Some(line),
        }
    }

    /// The line with which it is lost.
    fn line(&self) -> Option<u64>
        ensures { result ≡ self.now.lost }
    {
        self.lost
    }

    /// What it stands for, or a number of its list.
    fn item(&self, item: Option<u32>) -> Option<i64>
        ensures value { result ≡ item_at self.now item }
        ensures number { IfSome result IsNumber }
    {
        match item {
            None => Some(self.value),
            Some(place) => self.listed(place as usize),
        }
    }

    fn listed(&self, place: usize) -> Option<i64>
        ensures value { result ≡ slice_index_or self.now.list place (Some (pos 0)) }
        ensures number { IfSome result IsNumber }
    {
        let list = self.list.as_slice();
        if place < list.len() {
            list[place]
        } else {
            Some(0)
        }
    }
}

/// The line with which the first of these references is lost.
pub fn lost_in(variables: &[Variable], uses: &[Reference]) -> Option<u64>
    ensures { result ≡ lost_in variables.now uses.now }
{
    'each: for reference in uses {
        if let Some(variable) = variables.get(reference.variable as usize) {
            if let Some(line) = variable.line() {
                return Some(line);
            }
        }
    }
    None
}

/// What a reference stands for.
fn item_of(variables: &[Variable], reference: Reference) -> Option<i64>
    ensures value { result ≡ item_at (variable_at variables.now reference.variable) reference.item }
    ensures number { IfSome result IsNumber }
{
    match variables.get(reference.variable as usize) {
        Some(variable) => variable.item(reference.item),
        None => {
            if reference.item.is_none() {
                Some(0)
            } else {
                Some(0)
            }
        }
    }
}

/// Whether a reference is to a config of theirs that is none of ours.
fn is_foreign(variables: &[Variable], uses: &[Reference]) -> bool
    ensures { result ≡ list_any (is_foreign variables.now) uses.now }
{
    'each: for reference in uses {
        if item_of(variables, *reference).is_none() {
            return true;
        }
    }
    false
}

/// The number that a reference stands for.
fn reference_value(variables: &[Variable], reference: Reference) -> i64
    ensures value { result ≡ reference_value (stands_for variables.now) reference }
    ensures number { IsNumber result }
{
    item_of(variables, reference).unwrap_or(0)
}

#[tactic(auto, using(crate::proofs::ListLaws::set_past))]
fn put_at(args: &mut [i64; 8], place: usize, number: i64)
    requires { IsNumber number }
    ensures set { args.new ≡ slice_set args.old place number }
    ensures fit { (kind : CallKind) → AreArguments kind 0 args.old → AreArguments kind 0 args.new }
{
    if place < 8 {
        set_argument(args, place, number);
    }
}

/// The arguments of a call with what references stand for in their places.
#[tactic(auto, unfolding(trace_model::specs::Resolve::put_arguments))]
fn put_arguments(args: &[i64; 8], uses: &[Reference], variables: &[Variable]) -> [i64; 8]
    ensures value { result ≡ put_arguments (stands_for variables.now) args.now uses.now }
    ensures fit { (kind : CallKind) → AreArguments kind 0 args.now → AreArguments kind 0 result }
{
    let mut put = *args;
    'each: for reference in uses {
        if !reference.in_list {
            put_at(
                &mut put,
                reference.place as usize,
                reference_value(variables, *reference),
            );
        }
    }
    put
}

#[tactic(auto, using(crate::proofs::ListLaws::set_past))]
fn set_item(list: &mut Vec<i64>, place: usize, number: i64)
    requires numbers { All IsNumber list.old.items }
    requires number { IsNumber number }
    ensures set { list.new.items ≡ slice_set list.old.items place number }
    ensures numbers { All IsNumber list.new.items }
{
    if place < list.len() {
        list[place] = number;
    }
}

/// Puts what references stand for into their places in a list.
#[tactic(auto, unfolding(trace_model::specs::Resolve::put_items))]
fn put_items(list: &mut Vec<i64>, uses: &[Reference], variables: &[Variable])
    requires { All IsNumber list.old.items }
    ensures value { list.new.items ≡ put_items (stands_for variables.now) list.old.items uses.now }
    ensures numbers { All IsNumber list.new.items }
{
    'each: for reference in uses {
        if reference.in_list {
            set_item(
                list,
                reference.place as usize,
                reference_value(variables, *reference),
            );
        }
    }
}

/// A list with what references stand for in their places.
fn put_list(list: Numbers, uses: &[Reference], variables: &[Variable]) -> Numbers
    requires { All IsNumber list }
    ensures list { result ≡ put_items (stands_for variables.now) list uses.now }
    ensures numbers { All IsNumber result }
{
    let mut items = list.into_vec();
    put_items(&mut items, uses, variables);
    Numbers::from_vec(items)
}

/// The call of a line with what its references stand for in their places.
fn resolved(alloc: Global, line: &Line, variables: &[Variable]) -> Result<Call, NoMemory>
    ensures { IfOk result (λ c. c ≡ resolved_by (stands_for variables.now) line.now) }
{
    let Call {
        kind,
        args,
        list,
        bytes,
    } = line.call.to_call(alloc)?;
    let uses = line.uses.as_slice();
    let args = put_arguments(&args, uses, variables);
    let list = put_list(list, uses, variables);
    Ok(Call {
        kind,
        args,
        list,
        bytes,
    })
}

fn is_config_place(uses: &[Reference]) -> bool
    ensures { result ≡ list_any is_config_place uses.now }
{
    'each: for reference in uses {
        if !reference.in_list && reference.place as usize == CONFIG {
            return true;
        }
    }
    false
}

/// Whether a line names a config by its number.
fn names_config(line: &Line) -> bool
    ensures { result ≡ names_config line.now }
{
    takes_config(line.call.kind()) && !is_config_place(line.uses.as_slice())
}

/// A call with our config in the place of theirs.
fn with_config(call: Call, config: Option<i64>) -> Option<Call>
    requires { IfSome config IsNumber }
    ensures { result ≡ with_config call config }
{
    let Some(config) = config else {
        return None;
    };
    let Call {
        kind,
        mut args,
        list,
        bytes,
    } = call;
    set_argument(&mut args, CONFIG, config);
    Some(Call {
        kind,
        args,
        list,
        bytes,
    })
}

fn push_number(list: &mut Numbers, number: i64) -> Result<(), NoMemory>
    requires list { All IsNumber list.old }
    requires number { IsNumber number }
    ensures value { OnOk result (list.new ≡ list.old ++ number ∷ []) }
    ensures numbers { OnOk result (All IsNumber list.new) }
{
    list.push(number)
}

fn number_at(list: &[i64], place: usize) -> i64
    requires place { place < length list.now }
    requires numbers { All IsNumber list.now }
    ensures value { result ≡ slice_index_or list.now place (pos 0) }
    ensures number { IsNumber result }
{
    list[place]
}

/// The value of the first attribute in our numbers.
fn first_value(configs: &ConfigMap, list: &[i64]) -> Option<i64>
    requires long { 2 ≤ length list.now }
    requires numbers { All IsNumber list.now }
    ensures value { result ≡ our_value configs.now.pairs (slice_index_or list.now 0 (pos 0)) (slice_index_or list.now 1 (pos 0)) }
    ensures number { IfSome result IsNumber }
{
    configs.value(number_at(list, 0), number_at(list, 1))
}

/// Adds the first attribute of a list with this value.
fn push_pair(found: &mut Numbers, list: &[i64], value: i64) -> Result<(), NoMemory>
    requires found { All IsNumber found.old }
    requires list { All IsNumber list.now }
    requires long { 2 ≤ length list.now }
    requires value { IsNumber value }
    ensures value { OnOk result (found.new ≡ found.old ++ slice_index_or list.now 0 (pos 0) ∷ value ∷ []) }
    ensures numbers { OnOk result (All IsNumber found.new) }
{
    push_number(found, number_at(list, 0))?;
    push_number(found, value)
}

fn behind_two(list: &[i64]) -> &[i64]
    requires long { 2 ≤ length list.now }
    requires numbers { All IsNumber list.now }
    ensures rest { result.now ≡ drop 2 list.now }
    ensures numbers { All IsNumber result.now }
{
    list.split_at(2).1
}

/// A list with our configs for theirs. None where one is none of ours.
#[tactic(auto, using(crate::proofs::ConfigLaws::two_more, crate::proofs::ConfigLaws::none_left, crate::proofs::ConfigLaws::one_left, crate::proofs::ConfigLaws::nothing_left))]
fn our_list(alloc: Global, configs: &ConfigMap, list: &[i64]) -> Result<Option<Numbers>, NoMemory>
    requires { All IsNumber list.now }
    ensures value { IfOk result (λ o. o ≡ our_list configs.now.pairs list.now) }
    ensures numbers { IfOk result (λ o. IfSome o (All IsNumber)) }
{
    let mut found = Numbers::new(alloc);
    let mut rest = list;
    'pairs: while rest.len() >= 2 {
        let Some(value) = first_value(configs, rest) else {
            return Ok(None);
        };
        push_pair(&mut found, rest, value)?;
        rest = behind_two(rest);
    }
    if rest.len() == 1 {
        push_number(&mut found, number_at(rest, 0))?;
    }
    Ok(Some(found))
}

/// A call with our configs in its list.
fn with_list(call: Call, list: Option<Numbers>) -> Option<Call>
    requires { IfSome list (All IsNumber) }
    ensures { result ≡ with_list call list }
{
    let Some(list) = list else {
        return None;
    };
    let Call {
        kind,
        args,
        list: _,
        bytes,
    } = call;
    Some(Call {
        kind,
        args,
        list,
        bytes,
    })
}

/// A call with our configs in the place of theirs. None where one is none of ours.
fn with_our_configs(
    alloc: Global,
    configs: &ConfigMap,
    line: &Line,
    call: Call,
) -> Result<Option<Call>, NoMemory>
    ensures { IfOk result (λ o. o ≡ with_our_configs configs.now.pairs line.now call) }
{
    if names_config(line) {
        let config = configs.ours(i128::from(call.args[CONFIG]));
        return Ok(with_config(call, config));
    }
    if lists_configs(line.call.kind()) {
        let list = our_list(alloc, configs, call.list.as_slice())?;
        return Ok(with_list(call, list));
    }
    Ok(Some(call))
}

/// The same, where the log names its driver's configs.
fn in_our_configs(
    alloc: Global,
    configs: &ConfigMap,
    line: &Line,
    call: Call,
) -> Result<Option<Call>, NoMemory>
    ensures { IfOk result (λ o. o ≡ in_our_configs configs.now.named configs.now.pairs line.now call) }
{
    if configs.is_named() {
        with_our_configs(alloc, configs, line, call)
    } else {
        Ok(Some(call))
    }
}

/// The call of a line in our numbers, where it uses no lost variable. None where a config is none of ours.
#[tactic(auto, unfolding(crate::specs::Variables::our_call))]
pub fn our_call(
    alloc: Global,
    configs: &ConfigMap,
    variables: &[Variable],
    line: &Line,
) -> Result<Option<Call>, NoMemory>
    ensures { IfOk result (λ o. o ≡ our_call configs.now.named configs.now.pairs variables.now line.now) }
{
    if is_foreign(variables, line.uses.as_slice()) {
        return Ok(None);
    }
    let call = resolved(alloc, line, variables)?;
    in_our_configs(alloc, configs, line, call)
}
