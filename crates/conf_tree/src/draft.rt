//! An interface as far as its statements are read.
ghost use Rattle.std.specs.Prelude.{◌≡◌, OnOk, map, vec_len};
ghost use Rattle.conf_tree.specs.Fits.{Fits};
ghost use Rattle.conf_tree.specs.Tree.{begun, class_name, class_number, as_filtered, as_metered, changed, with_parent, add_class, add_filter, add_conditioner};

use crate::branch::Branch;
use crate::conditioner::Conditioner;
use crate::filter::Filter;
use crate::interface::Kind;
use crate::items::name_at;
use crate::names::Names;
use conf_lines::Statement;
use play_base::NoMemory;
use std::alloc::Global;
use std::marker::Model;
use traffic_meter::MeterRule;

/// An interface as far as its statements are read.
#[derive(Drop)]
pub(crate) struct Draft<'a> {
    pub(crate) line: u64,
    pub(crate) name: &'a str,
    pub(crate) rate: u64,
    pub(crate) kind: Kind,
    /// Whether it has a root.
    pub(crate) rooted: bool,
    /// Whether it has a default class.
    pub(crate) chosen: bool,
    /// The names of its classes.
    names: Names<'a>,
    pub(crate) classes: Vec<Branch>,
    pub(crate) filters: Vec<Filter>,
}

impl<'a> Model for Draft<'a> {
    ghost use Rattle.std.specs.Prelude.{◌≡◌, ◌≤◌, map, length};
    ghost use Rattle.conf_tree.specs.Tree.{Begun, class_name};

    ghost Value = { Begun };

    ghost view = { λ d. record {
      line = d.line;
      name = d.name.now;
      rate = d.rate;
      kind = d.kind;
      rooted = d.rooted;
      chosen = d.chosen;
      classes = d.classes.items;
      filters = d.filters.items;
    } };

    ghost invariant = { λ d. (d.names ≡ map class_name d.classes.items) × (length d.classes.items ≤ 256) };
}

impl<'a> Draft<'a> {
    /// An interface without classes.
    pub(crate) fn begin(alloc: Global, line: u64, name: &'a str, rate: u64, kind: Kind) -> Draft<'a>
        ensures { result ≡ begun line name.now rate kind }
    {
        Draft {
            line,
            name,
            rate,
            kind,
            rooted: false,
            chosen: false,
            names: Names::new(alloc),
            classes: Vec::new(alloc),
            filters: Vec::new(alloc),
        }
    }

    /// The number of the class of a name.
    pub(crate) fn class_number(&self, name: &str) -> Option<u32>
        ensures { result ≡ class_number name.now self.now.classes }
    {
        let _classes = &self.classes;
        match self.names.number(name) {
            Some(number) => Some(number as u32),
            None => None,
        }
    }

    /// Its classes and its filters. Does not allocate.
    pub(crate) fn into_parts(self) -> (Vec<Branch>, Vec<Filter>)
        ensures classes { result.0.items ≡ self.entry.classes }
        ensures filters { result.1.items ≡ self.entry.filters }
    {
        let Draft {
            classes,
            filters,
            ..
        } = self;
        (classes, filters)
    }

    /// Adds the class of a statement.
    pub(crate) fn add_class(
        &mut self,
        statement: &'a Statement,
        branch: Branch,
    ) -> Result<(), NoMemory>
        requires { Fits self.old statement.now branch }
        ensures added { OnOk result (self.new ≡ add_class self.old branch) }
        ensures name { self.new.name ≡ self.old.name }
    {
        let Some(name) = name_at(statement.items.as_slice(), 1) else {
            return Err(NoMemory);
        };
        let parent = branch.class.parent;
        let is_default = branch.class.is_default;
        name_parent(&mut self.classes, parent);
        match self.names.add_with(name, &mut self.classes, branch) {
            Ok(()) => {}
            Err(NoMemory) => return Err(NoMemory),
        }
        self.rooted = self.rooted || parent.is_none();
        self.chosen = self.chosen || is_default;
        Ok(())
    }

    /// Adds a filter.
    pub(crate) fn add_filter(&mut self, filter: Filter) -> Result<(), NoMemory>
        ensures added { OnOk result (self.new ≡ add_filter self.old filter) }
        ensures name { self.new.name ≡ self.old.name }
    {
        name_filtered(&mut self.classes, filter.class as usize);
        match self.filters.push(filter) {
            Ok(()) => Ok(()),
            Err(_) => Err(NoMemory),
        }
    }

    /// Adds a conditioner. Does not allocate.
    pub(crate) fn add_conditioner(&mut self, conditioner: Conditioner)
        ensures added { self.new ≡ add_conditioner self.old conditioner }
        ensures name { self.new.name ≡ self.old.name }
    {
        set_meter(
            &mut self.classes,
            conditioner.class as usize,
            conditioner.rule,
        );
    }
}

/// A class is named as a parent.
fn name_parent(classes: &mut Vec<Branch>, parent: Option<u32>)
    ensures named { classes.new.items ≡ with_parent classes.old.items parent }
    ensures names { map class_name classes.new.items ≡ map class_name classes.old.items }
    ensures len { vec_len classes.new ≡ vec_len classes.old }
{
    if let Some(parent) = parent {
        let parent = parent as usize;
        if parent < classes.len() {
            let branch = &mut classes[parent];
            branch.class.real = None;
            branch.inner = true;
        }
    }
}

/// A class is named by a filter.
fn name_filtered(classes: &mut Vec<Branch>, class: usize)
    ensures named { classes.new.items ≡ changed classes.old.items class as_filtered }
    ensures names { map class_name classes.new.items ≡ map class_name classes.old.items }
    ensures len { vec_len classes.new ≡ vec_len classes.old }
{
    if class < classes.len() {
        let branch = &mut classes[class];
        branch.filtered = true;
    }
}

/// A class has a conditioner of this rule.
fn set_meter(classes: &mut Vec<Branch>, class: usize, rule: MeterRule)
    ensures set { classes.new.items ≡ changed classes.old.items class (as_metered rule) }
    ensures names { map class_name classes.new.items ≡ map class_name classes.old.items }
    ensures len { vec_len classes.new ≡ vec_len classes.old }
{
    if class < classes.len() {
        let branch = &mut classes[class];
        branch.class.meter = Some(rule);
    }
}
