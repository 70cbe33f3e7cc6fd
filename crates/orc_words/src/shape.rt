//! The numbers that a table is made of.

ghost use Rattle.std.specs.Prelude.{◌≡◌, ◌≤◌, ◌^◌};

/// The highest limit that a shape may have: 2^39.
pub const HIGHEST_LIMIT: u64 = 549_755_813_888;

/// How far above its limit a sequence may still rise before its row is linked no more.
const LINK_SLACK: u64 = 64;

/// The sizes of a table, the limit of its lives and sequences, and the number of links of a row.
#[derive(Clone, Copy)]
pub struct Shape {
    rows: u32,
    roots: u32,
    agents: u32,
    limit: u64,
    links: u32,
    pub ghost some_rows: { 2 ≤ rows },
    pub ghost few_rows: { rows ≤ 65535 },
    pub ghost some_roots: { 1 ≤ roots },
    pub ghost few_roots: { roots ≤ 257 },
    pub ghost some_agents: { 1 ≤ agents },
    pub ghost few_agents: { agents ≤ 16 },
    pub ghost some_limit: { 1 ≤ limit },
    pub ghost low_limit: { limit ≤ 2 ^ 39 },
    pub ghost some_links: { 1 ≤ links },
    pub ghost few_links: { links ≤ 2 },
}

/// The first number of a shape that is out of range.
#[derive(Clone, Copy, Debug, PartialEq, Eq)]
pub enum ShapeFault {
    Rows(u32),
    Roots(u32),
    Agents(u32),
    Limit(u64),
    Links(u32),
}

impl Shape {
    ghost use Rattle.std.specs.Prelude.{IfOk, IfErr};
    ghost use Rattle.orc_words.specs.{Bounds.{Bounds, bounds_of, IsShape, IsFirstFault, link_limit}, Places.{places, words_of_rows}};

    /// A shape of 2 to 65,535 rows, 1 to 257 roots and 1 to 16 agents, with a limit of 1 to 2^39. Its rows have one link.
    pub fn new(rows: u32, roots: u32, agents: u32, limit: u64) -> Result<Shape, ShapeFault>
        ensures in_range { IfOk result (λ shape. IsShape (bounds_of shape)) }
        ensures asked { let asked : Bounds = record { rows = rows; roots = roots; agents = agents; limit = limit; links = 1 } in
            IfOk result (λ shape. bounds_of shape ≡ asked) }
        ensures fault { let asked : Bounds = record { rows = rows; roots = roots; agents = agents; limit = limit; links = 1 } in
            IfErr result (IsFirstFault asked) }
    {
        if !(2..=65_535).contains(&rows) {
            return Err(ShapeFault::Rows(rows));
        }
        if !(1..=257).contains(&roots) {
            return Err(ShapeFault::Roots(roots));
        }
        if !(1..=16).contains(&agents) {
            return Err(ShapeFault::Agents(agents));
        }
        if !(1..=HIGHEST_LIMIT).contains(&limit) {
            return Err(ShapeFault::Limit(limit));
        }
        Ok(Shape {
            rows,
            roots,
            agents,
            limit,
            links: 1,
        })
    }

    /// A shape as `new` makes it, but with 1 or 2 links for each row.
    pub fn with_links(
        rows: u32,
        roots: u32,
        agents: u32,
        limit: u64,
        links: u32,
    ) -> Result<Shape, ShapeFault>
        ensures in_range { IfOk result (λ shape. IsShape (bounds_of shape)) }
        ensures asked { let asked : Bounds = record { rows = rows; roots = roots; agents = agents; limit = limit; links = links } in
            IfOk result (λ shape. bounds_of shape ≡ asked) }
        ensures fault { let asked : Bounds = record { rows = rows; roots = roots; agents = agents; limit = limit; links = links } in
            IfErr result (IsFirstFault asked) }
    {
        let shape = Shape::new(rows, roots, agents, limit)?;
        if !(1..=2).contains(&links) {
            return Err(ShapeFault::Links(links));
        }
        Ok(Shape {
            rows: shape.rows,
            roots: shape.roots,
            agents: shape.agents,
            limit: shape.limit,
            links,
        })
    }

    /// The number of rows.
    pub fn rows(&self) -> u32
        ensures { result ≡ (bounds_of self.now).rows }
    {
        self.rows
    }

    /// The number of roots.
    pub fn roots(&self) -> u32
        ensures { result ≡ (bounds_of self.now).roots }
    {
        self.roots
    }

    /// The number of agents.
    pub fn agents(&self) -> u32
        ensures { result ≡ (bounds_of self.now).agents }
    {
        self.agents
    }

    /// From which life or sequence on a row is taken no more.
    pub fn limit(&self) -> u64
        ensures { result ≡ (bounds_of self.now).limit }
    {
        self.limit
    }

    /// From which sequence on a row is linked no more.
    pub fn link_limit(&self) -> u64
        ensures { result ≡ link_limit (bounds_of self.now) }
    {
        self.limit + LINK_SLACK
    }

    /// The number of links of a row, 1 or 2.
    pub fn links(&self) -> u32
        ensures { result ≡ (bounds_of self.now).links }
    {
        self.links
    }

    /// How many words so many rows have: five each, or six where a row has two links.
    #[inline(always)]
    pub fn words_of_rows(&self, rows: u32) -> u32
        requires { rows ≤ 65535 }
        ensures { result ≡ words_of_rows (bounds_of self.now) rows }
    {
        (4 + self.links) * rows
    }

    /// The number of words of the machine, one at each place. A table that threads share is longer, for it has gaps
    /// between them.
    pub fn words(&self) -> u32
        ensures { result ≡ places (bounds_of self.now) }
    {
        1 + self.roots + self.words_of_rows(self.rows) + 16 * self.agents
    }
}
