//! Where names are read.

ghost use Rattle.std.specs.Prelude.{◌≡◌, ◌+◌, ◌++◌, map, IfOk, OnOk};
ghost use Rattle.rel_algebra.specs.Emit.{read, at, entered, lifted, folded_env, passed, top};
ghost use Rattle.rel_algebra.specs.PlanView.{scalar_of};
ghost use Rattle.plan_expressions.specs.Scopes.{env_of, place_of, in_list, in_span, listed_env};
ghost use Rattle.plan_expressions.specs.Scopes.{outward_parameters, outward_span, is_zero};

use rel_algebra::Scalar;
use sql_values::{NoMemory, Value};
use sqlite_items::Items;
use std::alloc::Global;

/// Columns of a row: how far out the row stands, the first of the columns, and how many there are.
#[derive(Clone, Copy, Debug)]
pub struct Span {
    pub level: usize,
    pub first: usize,
    pub count: usize,
}

/// Where parameters are read.
#[derive(Drop)]
pub enum Parameters {
    /// As arguments, of which there are so many.
    Arguments(usize),
    /// In columns.
    Columns(Span),
    /// Each in a column of its own of the row of a level.
    Listed(usize, Items<usize>),
}

/// Where a name is read.
#[derive(Clone, Copy, Debug)]
pub enum Place {
    /// In a column, by its level and its place.
    Column(usize, usize),
    /// In an argument.
    Argument(usize),
    /// Nowhere: it is NULL.
    Nowhere,
}

impl Place {
    /// What a name is read as.
    pub fn read(self) -> Scalar
        ensures { scalar_of result ≡ read (place_of self) }
    {
        match self {
            Place::Column(level, place) => Scalar::Column(level, place),
            Place::Argument(place) => Scalar::Argument(place),
            Place::Nowhere => Scalar::Constant(Value::Null),
        }
    }
}

/// Where the names of an expression are read: the columns of the queries that stand around it, the
/// innermost first, and the parameters.
#[derive(Drop)]
pub struct NameSources {
    pub spans: Items<Span>,
    pub parameters: Parameters,
}

impl NameSources {
    /// What no query stands around: so many parameters, as arguments.
    pub fn top(alloc: Global, parameters: usize) -> NameSources
        ensures { env_of result ≡ top parameters }
    {
        NameSources {
            spans: Items::new(alloc),
            parameters: Parameters::Arguments(parameters),
        }
    }

    /// The body of a function that is called: its parameters in so many columns from `first` on.
    pub fn passed(alloc: Global, first: usize, count: usize) -> NameSources
        ensures { env_of result ≡ passed first count }
    {
        let span = Span {
            level: 0,
            first,
            count,
        };
        NameSources {
            spans: Items::new(alloc),
            parameters: Parameters::Columns(span),
        }
    }

    /// The body of a function whose variables stand in these columns.
    pub fn listed(alloc: Global, columns: &[usize]) -> Result<NameSources, NoMemory>
        ensures { IfOk result (λ s. env_of s ≡ listed_env columns.now) }
    {
        let columns = Items::from_slice(alloc, columns)?;
        Ok(NameSources {
            spans: Items::new(alloc),
            parameters: Parameters::Listed(0, columns),
        })
    }

    /// A query on rows of so many columns, within these names.
    pub fn entered(&self, alloc: Global, columns: usize) -> Result<NameSources, NoMemory>
        ensures { IfOk result (λ s. env_of s ≡ entered (env_of self.now) columns) }
    {
        let mut spans = Items::new(alloc);
        spans.push(Span {
            level: 0,
            first: 0,
            count: columns,
        })?;
        add_outward(self.spans.as_slice(), &mut spans)?;
        let parameters = parameters_outward(alloc, &self.parameters)?;
        Ok(NameSources { spans, parameters })
    }

    /// A row of VALUES, which has no row of its own, within these names.
    pub fn lifted(&self, alloc: Global) -> Result<NameSources, NoMemory>
        ensures { IfOk result (λ s. env_of s ≡ lifted (env_of self.now)) }
    {
        let mut spans = Items::new(alloc);
        add_outward(self.spans.as_slice(), &mut spans)?;
        let parameters = parameters_outward(alloc, &self.parameters)?;
        Ok(NameSources { spans, parameters })
    }

    /// The list of a query whose row is so many columns of the row outside it, from `first` on.
    pub fn folded(
        &self,
        alloc: Global,
        first: usize,
        columns: usize,
    ) -> Result<NameSources, NoMemory>
        ensures { IfOk result (λ s. env_of s ≡ folded_env (env_of self.now) first columns) }
    {
        let mut spans = Items::new(alloc);
        spans.push(Span {
            level: 0,
            first,
            count: columns,
        })?;
        spans.append(Items::from_slice(alloc, self.spans.as_slice())?)?;
        let parameters = copied_parameters(alloc, &self.parameters)?;
        Ok(NameSources { spans, parameters })
    }

    /// Where a column is read, by its level and its place.
    pub fn column(&self, level: usize, place: usize) -> Result<Place, NoMemory>
        ensures { IfOk result (λ p. place_of p ≡ (env_of self.now).columns level place) }
    {
        match self.spans.get(level) {
            Some(span) => column_in(*span, place),
            None => Ok(Place::Nowhere),
        }
    }

    /// Where a parameter is read, by its place.
    pub fn parameter(&self, place: usize) -> Result<Place, NoMemory>
        ensures { IfOk result (λ p. place_of p ≡ (env_of self.now).params place) }
    {
        match &self.parameters {
            Parameters::Arguments(count) => Ok(argument(*count, place)),
            Parameters::Columns(span) => column_in(*span, place),
            Parameters::Listed(level, columns) => Ok(listed(*level, columns, place)),
        }
    }
}

/// Whether a level is that of the row itself.
pub fn is_inner(level: usize) -> bool
    ensures { result ≡ is_zero level }
{
    if level == 0 { true } else { false }
}

// Puts columns after others, seen from a row further in.
fn add_outward(spans: &[Span], outward: &mut Items<Span>) -> Result<(), NoMemory>
    ensures { OnOk result (outward.new ≡ outward.old ++ map outward_span spans.now) }
{
    for span in spans {
        outward.push(span_outward(*span)?)?;
    }
    Ok(())
}

// Columns, seen from a row further in.
fn span_outward(span: Span) -> Result<Span, NoMemory>
    ensures { IfOk result (λ s. s ≡ outward_span span) }
{
    match span.level.checked_add(1) {
        Some(level) => Ok(Span {
            level,
            first: span.first,
            count: span.count,
        }),
        None => Err(NoMemory),
    }
}

// Parameters, seen from a row further in.
fn parameters_outward(alloc: Global, parameters: &Parameters) -> Result<Parameters, NoMemory>
    ensures { IfOk result (λ p. p ≡ outward_parameters parameters.now) }
{
    match parameters {
        Parameters::Arguments(count) => Ok(Parameters::Arguments(*count)),
        Parameters::Columns(span) => Ok(Parameters::Columns(span_outward(*span)?)),
        Parameters::Listed(level, columns) => match level.checked_add(1) {
            Some(level) => {
                let columns = Items::from_slice(alloc, columns.as_slice())?;
                Ok(Parameters::Listed(level, columns))
            }
            None => Err(NoMemory),
        },
    }
}

// The same parameters once more.
fn copied_parameters(alloc: Global, parameters: &Parameters) -> Result<Parameters, NoMemory>
    ensures { IfOk result (λ p. p ≡ parameters.now) }
{
    match parameters {
        Parameters::Arguments(count) => Ok(Parameters::Arguments(*count)),
        Parameters::Columns(span) => Ok(Parameters::Columns(*span)),
        Parameters::Listed(level, columns) => {
            let columns = Items::from_slice(alloc, columns.as_slice())?;
            Ok(Parameters::Listed(*level, columns))
        }
    }
}

// The column at a place among some.
fn column_in(span: Span, place: usize) -> Result<Place, NoMemory>
    ensures { IfOk result (λ p. place_of p ≡ in_span span place) }
{
    if place >= span.count {
        return Ok(Place::Nowhere);
    }
    match span.first.checked_add(place) {
        Some(column) => Ok(Place::Column(span.level, column)),
        None => Err(NoMemory),
    }
}

// The column of a level that is listed at a place.
fn listed(level: usize, columns: &Items<usize>, place: usize) -> Place
    ensures { place_of result ≡ in_list level columns.now place }
{
    match columns.get(place) {
        Some(column) => Place::Column(level, *column),
        None => Place::Nowhere,
    }
}

// The argument at a place among so many.
fn argument(count: usize, place: usize) -> Place
    ensures { place_of result ≡ (top count).params place }
{
    if place < count {
        Place::Argument(place)
    } else {
        Place::Nowhere
    }
}
