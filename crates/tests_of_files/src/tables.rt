//! The tables of a domain as a text, which its look-ups of numbers and of words write.
//!
//! `0:L` is a number with its name, `L=0` a word with its number, `2.0` the first instruction of block 2, `own 0` the
//! first parameter of the class, and `given 0` that of the action.

use crate::domain_of::checked;
use sml_domain::{
    ActionId, Argument, BlockId, Class, Cond, Domain, Group, Instr, ObjId, Operand, Param, SetId,
    StateId, Subject, Target, Value,
};
use sml_text::{Lexeme, Source, next_token, tell_i64, tell_u64};
use sml_tree::{Kind, Name};
use std::alloc::Global;

// What a name is one of.
enum Sort {
    Object,
    Class,
    Set,
    State,
    Action,
}

// Each look-up by number is called with each of these: all numbers that a domain here has, some past these, and the
// greatest.
const NUMBERS: &[usize] = &[0, 1, 2, 3, 4, 5, 6, 7, usize::MAX];

// Each look-up by name is called with each of these: all names that a domain here has, others, and some in small
// letters.
const WORDS: &str =
    "A B BAD BOSS BROKEN C CONFIGURE COUNTER DEAD DONE E ERROR FLY G GO GONE GOOD H HV HV1 HV2 IDLE J K L
LAMP LAMPS LEFT LIGHT M NEVER NONE NOPE NOT_READY NOWHERE OFF ON OUT PUT READY RIGHT RUN RUN_TYPE S
SHOW SINK STOP SUPPLY SWITCH_OFF SWITCH_ON T TAKE U X Y Dead hv2 l";

// Adds bytes to a text. If memory runs out, the text stays too short and differs from every expected text.
fn add(text: &mut Vec<u8>, bytes: &[u8]) {
    let _ = text.extend_from_slice(bytes);
}

fn add_number(text: &mut Vec<u8>, number: usize) {
    tell_u64(text, &mut false, number as u64);
}

fn name_of(word: &[u8]) -> Option<Name> {
    match next_token(Source::Domain, word, 0)?.0.lexeme {
        Lexeme::Word(word) => Some(Name::from_word(word)),
        _ => None,
    }
}

fn number_of(domain: &Domain, sort: &Sort, name: &Name) -> Option<usize> {
    match sort {
        Sort::Object => Some(domain.object(name)?.get()),
        Sort::Class => Some(domain.class(name)?.get()),
        Sort::Set => Some(domain.set(name)?.get()),
        Sort::State => Some(domain.state(name)?.get()),
        Sort::Action => Some(domain.action(name)?.get()),
    }
}

fn name_at(domain: &Domain, sort: &Sort, number: usize) -> Option<Name> {
    match sort {
        Sort::Object => domain.object_name(ObjId::new(number)),
        Sort::Class => Some(domain.classes().get(number)?.name),
        Sort::Set => Some(domain.groups().get(number)?.name),
        Sort::State => domain.state_name(StateId::new(number)),
        Sort::Action => domain.action_name(ActionId::new(number)),
    }
}

// Adds the name of a number, if the name has that number.
fn add_name(text: &mut Vec<u8>, domain: &Domain, sort: &Sort, number: usize) {
    match &name_at(domain, sort, number) {
        Some(name) if number_of(domain, sort, name) == Some(number) => add(text, name.as_bytes()),
        _ => add(text, b"?"),
    }
}

// Adds a number with its name, if it has one.
fn add_named(text: &mut Vec<u8>, domain: &Domain, sort: &Sort, number: usize) {
    if let Some(name) = &name_at(domain, sort, number) {
        add(text, b" ");
        add_number(text, number);
        add(text, b":");
        add(text, name.as_bytes());
    }
}

fn number_of_word(domain: &Domain, sort: &Sort, word: &[u8]) -> Option<usize> {
    number_of(domain, sort, &name_of(word)?)
}

// Adds a word with its number, if it has one.
fn add_word(text: &mut Vec<u8>, domain: &Domain, sort: &Sort, word: &[u8]) {
    if let Some(number) = number_of_word(domain, sort, word) {
        add(text, b" ");
        add(text, word);
        add(text, b"=");
        add_number(text, number);
    }
}

fn add_words(text: &mut Vec<u8>, domain: &Domain, sort: &Sort) {
    for word in WORDS.split_whitespace() {
        add_word(text, domain, sort, word.as_bytes());
    }
}

// Adds all that have a name of a sort by their numbers, and then by words.
fn add_sort(text: &mut Vec<u8>, domain: &Domain, title: &[u8], sort: &Sort) {
    add(text, title);
    for number in NUMBERS {
        add_named(text, domain, sort, *number);
    }
    add_words(text, domain, sort);
}

fn add_sorts(text: &mut Vec<u8>, domain: &Domain) {
    add_sort(text, domain, b"\nobjects", &Sort::Object);
    add_sort(text, domain, b"\nclasses", &Sort::Class);
    add_sort(text, domain, b"\nsets", &Sort::Set);
    add_sort(text, domain, b"\nstates", &Sort::State);
    add_sort(text, domain, b"\nactions", &Sort::Action);
}

fn add_class(text: &mut Vec<u8>, class: &Class) {
    add(text, b"\nclass ");
    add(text, class.name.as_bytes());
    add(text, b" with states: ");
    add_number(text, class.states.rows().len());
    if class.associated {
        add(text, b", associated");
    }
}

fn add_members(text: &mut Vec<u8>, domain: &Domain, set: SetId) {
    for member in domain.members(set) {
        add(text, b" ");
        add_name(text, domain, &Sort::Object, member.get());
    }
}

fn add_group(text: &mut Vec<u8>, group: &Group) {
    add(text, b"\nset ");
    add(text, group.name.as_bytes());
    add(text, b" of ");
    add_number(text, group.members.len());
    add(text, b" {");
}

// Adds what a set may come to have, if that is more than its members.
fn add_may(text: &mut Vec<u8>, domain: &Domain, set: SetId) {
    let may = domain.may_have(set);
    if may.len() == domain.members(set).len() {
        return;
    }
    add(text, b" may {");
    for object in may {
        add(text, b" ");
        add_name(text, domain, &Sort::Object, object.get());
    }
    add(text, b" }");
}

// Adds a set, with the count of its members in the list of all sets, and the members that its number has.
fn add_set(text: &mut Vec<u8>, domain: &Domain, set: usize) {
    match domain.groups().get(set) {
        Some(group) => {
            add_group(text, group);
            add_members(text, domain, SetId::new(set));
            add(text, b" }");
            add_may(text, domain, SetId::new(set));
        }
        None => add_members(text, domain, SetId::new(set)),
    }
}

fn add_value(text: &mut Vec<u8>, value: &Value) {
    match value {
        Value::Int(int) => tell_i64(text, &mut false, *int),
        Value::Text(bytes) => {
            add(text, b"\"");
            add(text, bytes.as_bytes());
            add(text, b"\"");
        }
    }
}

fn add_param(text: &mut Vec<u8>, param: &Param) {
    match param.kind {
        Kind::Int => add(text, b" (int "),
        Kind::Str => add(text, b" (string "),
    }
    add(text, param.name.as_bytes());
    if let Some(value) = &param.value {
        add(text, b" = ");
        add_value(text, value);
    }
    add(text, b")");
}

fn add_params(text: &mut Vec<u8>, params: &[Param]) {
    for param in params {
        add_param(text, param);
    }
}

// Adds an object's class, and the states in which it begins and into which it is killed, if there is the object.
fn add_first_line(text: &mut Vec<u8>, domain: &Domain, object: ObjId) {
    if domain.has(object) {
        add(text, b"\n");
        add_name(text, domain, &Sort::Object, object.get());
        add(text, b" is ");
        add_name(text, domain, &Sort::Class, domain.class_of(object).get());
        add(text, b", begins ");
        add_name(text, domain, &Sort::State, domain.initial(object).get());
        add(text, b", dies ");
        add_name(text, domain, &Sort::State, domain.dead(object).get());
    }
}

// Adds the parameters that an object takes for an action, if it lists the action.
fn add_taken(text: &mut Vec<u8>, domain: &Domain, object: ObjId, action: usize) {
    if let Some(params) = domain.parameters(object, ActionId::new(action)) {
        add(text, b"\n");
        add_name(text, domain, &Sort::Object, object.get());
        add(text, b" takes ");
        add_name(text, domain, &Sort::Action, action);
        add_params(text, params);
    }
}

// Adds an action with its block, if an object declares it in a state. (A declaration without a block, a block
// without a declaration, and either in a state that is not the object's have no place in a text that is expected.)
fn add_declared(text: &mut Vec<u8>, domain: &Domain, object: ObjId, state: StateId, action: usize) {
    let number = ActionId::new(action);
    let is_state = domain.is_state(object, state);
    let declares = domain.declares(object, state, number);
    match domain.block(object, state, number) {
        Some(block) if is_state && declares => {
            add(text, b", ");
            add_name(text, domain, &Sort::Action, action);
            add(text, b" does ");
            add_number(text, block.get());
        }
        None if !declares => {}
        _ => add(text, b", ?"),
    }
}

// Adds a state, if an object has it, and the actions that it declares there.
fn add_state(text: &mut Vec<u8>, domain: &Domain, object: ObjId, state: usize) {
    if domain.is_state(object, StateId::new(state)) {
        add(text, b"\n");
        add_name(text, domain, &Sort::Object, object.get());
        add(text, b" in ");
        add_name(text, domain, &Sort::State, state);
    }
    for action in NUMBERS {
        add_declared(text, domain, object, StateId::new(state), *action);
    }
}

fn add_states(text: &mut Vec<u8>, domain: &Domain, object: ObjId) {
    for state in NUMBERS {
        add_state(text, domain, object, *state);
    }
}

// Adds an object, with the parameters of its class and those of its actions.
fn add_object(text: &mut Vec<u8>, domain: &Domain, object: ObjId) {
    add_first_line(text, domain, object);
    if domain.associated(object) {
        add(text, b", associated");
    }
    add_params(text, domain.class_parameters(object));
    for action in NUMBERS {
        add_taken(text, domain, object, *action);
    }
    add_states(text, domain, object);
}

fn add_counts(text: &mut Vec<u8>, domain: &Domain) {
    add(text, b"objects: ");
    add_number(text, domain.objects());
    add(text, b", blocks: ");
    add_number(text, domain.blocks().len());
}

// Adds the classes and sets by their lists.
fn add_lists(text: &mut Vec<u8>, domain: &Domain) {
    for class in domain.classes() {
        add_class(text, class);
    }
    for set in NUMBERS {
        add_set(text, domain, *set);
    }
}

fn add_operand(text: &mut Vec<u8>, operand: &Operand) {
    match operand {
        Operand::Fixed(value) => add_value(text, value),
        Operand::Own(param) => {
            add(text, b"own ");
            add_number(text, param.get());
        }
        Operand::Given(param) => {
            add(text, b"given ");
            add_number(text, param.get());
        }
    }
}

fn add_args(text: &mut Vec<u8>, args: &[Argument]) {
    for arg in args {
        add(text, b" (");
        add(text, arg.name.as_bytes());
        add(text, b" = ");
        add_operand(text, &arg.value);
        add(text, b")");
    }
}

fn add_target(text: &mut Vec<u8>, domain: &Domain, target: Target) {
    match target {
        Target::One(object) => {
            add(text, b" ");
            add_name(text, domain, &Sort::Object, object.get());
        }
        Target::Members(set) => {
            add(text, b" all_in ");
            add_name(text, domain, &Sort::Set, set.get());
        }
    }
}

fn add_asked(text: &mut Vec<u8>, domain: &Domain, asked: Subject) {
    match asked {
        Subject::One(object) => add_name(text, domain, &Sort::Object, object.get()),
        Subject::Each(set) => {
            add(text, b"all_in ");
            add_name(text, domain, &Sort::Set, set.get());
        }
        Subject::Any(set) => {
            add(text, b"any_in ");
            add_name(text, domain, &Sort::Set, set.get());
        }
    }
}

fn add_tested(text: &mut Vec<u8>, domain: &Domain, negated: bool, states: &[StateId]) {
    if negated {
        add(text, b" not_in");
    } else {
        add(text, b" in");
    }
    for state in states {
        add(text, b" ");
        add_name(text, domain, &Sort::State, state.get());
    }
}

fn add_cond(text: &mut Vec<u8>, domain: &Domain, cond: &Cond) {
    match cond {
        Cond::And(left, right) => {
            add(text, b"(");
            add_cond(text, domain, left);
            add(text, b" and ");
            add_cond(text, domain, right);
            add(text, b")");
        }
        Cond::Or(left, right) => {
            add(text, b"(");
            add_cond(text, domain, left);
            add(text, b" or ");
            add_cond(text, domain, right);
            add(text, b")");
        }
        Cond::Not(inner) => {
            add(text, b"not ");
            add_cond(text, domain, inner);
        }
        Cond::Test {
            asked,
            negated,
            states,
        } => {
            add_asked(text, domain, *asked);
            add_tested(text, domain, *negated, states);
        }
    }
}

// Adds a word and a name behind it.
fn add_worded(text: &mut Vec<u8>, domain: &Domain, word: &[u8], sort: &Sort, number: usize) {
    add(text, word);
    add_name(text, domain, sort, number);
}

fn add_branches(text: &mut Vec<u8>, domain: &Domain, cond: &Cond, yes: BlockId, no: BlockId) {
    add(text, b"if ");
    add_cond(text, domain, cond);
    add(text, b" then ");
    add_number(text, yes.get());
    add(text, b" else ");
    add_number(text, no.get());
}

fn add_waited(text: &mut Vec<u8>, domain: &Domain, waited: &[Subject]) {
    add(text, b"wait");
    for asked in waited {
        add(text, b" ");
        add_asked(text, domain, *asked);
    }
}

fn add_instr(text: &mut Vec<u8>, domain: &Domain, instr: &Instr) {
    match instr {
        Instr::Set { param, value } => {
            add(text, b"set ");
            add_number(text, param.get());
            add(text, b" = ");
            add_operand(text, value);
        }
        Instr::Send {
            target,
            action,
            args,
        } => {
            add_worded(text, domain, b"do ", &Sort::Action, action.get());
            add_args(text, args);
            add_target(text, domain, *target);
        }
        Instr::SendNone { set } => {
            add_worded(text, domain, b"do nothing all_in ", &Sort::Set, set.get())
        }
        Instr::If { cond, yes, no } => add_branches(text, domain, cond, *yes, *no),
        Instr::MoveTo(state) => add_worded(text, domain, b"move_to ", &Sort::State, state.get()),
        Instr::Terminate(state) => {
            add_worded(
                text,
                domain,
                b"terminate_action ",
                &Sort::State,
                state.get(),
            )
        }
        Instr::Wait(waited) => add_waited(text, domain, waited),
        Instr::Insert { member, set } => {
            add_worded(text, domain, b"insert ", &Sort::Object, member.get());
            add_worded(text, domain, b" in ", &Sort::Set, set.get());
        }
        Instr::Remove { member, set } => {
            add_worded(text, domain, b"remove ", &Sort::Object, member.get());
            add_worded(text, domain, b" from ", &Sort::Set, set.get());
        }
    }
}

// Adds an instruction with its block and its place there.
fn add_placed(text: &mut Vec<u8>, domain: &Domain, block: usize, place: usize, instr: &Instr) {
    add(text, b"\n");
    add_number(text, block);
    add(text, b".");
    add_number(text, place);
    add(text, b" ");
    add_instr(text, domain, instr);
}

// Adds the instructions of a block by their list.
fn add_listed(text: &mut Vec<u8>, domain: &Domain, block: usize) {
    for (place, instr) in domain.instructions(BlockId::new(block)).iter().enumerate() {
        add_placed(text, domain, block, place, instr);
    }
}

// Adds the instructions of a block by their places.
fn add_at_places(text: &mut Vec<u8>, domain: &Domain, block: usize) {
    for place in NUMBERS {
        if let Some(instr) = domain.instruction(BlockId::new(block), *place) {
            add_placed(text, domain, block, *place, instr);
        }
    }
}

fn add_block(text: &mut Vec<u8>, domain: &Domain, block: usize, by_places: bool) {
    if by_places {
        add_at_places(text, domain, block);
    } else {
        add_listed(text, domain, block);
    }
}

/// Whether these are the tables of a domain, the blocks by their lists or by places.
pub fn are_tables(alloc: Global, domain: &Domain, tables: &[u8], by_places: bool) -> bool {
    let mut text = Vec::new(alloc);
    add_counts(&mut text, domain);
    add_sorts(&mut text, domain);
    add_lists(&mut text, domain);
    for object in NUMBERS {
        add_object(&mut text, domain, ObjId::new(*object));
    }
    for block in NUMBERS {
        add_block(&mut text, domain, *block, by_places);
    }
    text.as_slice() == tables
}

/// Whether a text has a domain, and these are its tables.
pub fn has_tables(alloc: Global, text: &[u8], tables: &[u8]) -> bool {
    let answer = checked(alloc, text);
    let so = match &answer {
        Some(Ok(domain)) => {
            are_tables(alloc, domain, tables, false) && are_tables(alloc, domain, tables, true)
        }
        _ => false,
    };
    drop(answer);
    so
}
