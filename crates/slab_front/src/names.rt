// Where the mill of a job comes from, and how it is searched.
ghost use Rattle.mill_model.specs.Mill.{IsBetween, most_colour_limit};
ghost use Rattle.slab_front.specs.Words.{most_limit};

/// Where a mill comes from: its order file, its yard file where one is named, and its colour limit, 1 to 3.
#[derive(Clone, Copy)]
pub struct MillNames<'a> {
    pub orders: &'a str,
    pub yard: Option<&'a str>,
    pub colours: u16,
    pub ghost few_colours: { IsBetween 1 most_colour_limit colours },
}

/// How a mill is searched: the file in which its certificate is stored, the most nodes of one question's tree, 1 to 10^15, and
/// how many rounds follow a first-fit plan, with the seed of their numbers.
#[derive(Clone, Copy)]
pub struct SearchNames<'a> {
    pub cert: &'a str,
    pub nodes: u64,
    pub rounds: u32,
    pub seed: u32,
    pub ghost few_nodes: { IsBetween 1 most_limit nodes },
}

impl<'a> MillNames<'a> {
    ghost use Rattle.std.specs.Prelude.{◌≡◌};
    ghost use Rattle.run_words.specs.Words.{named_mill};
    ghost use Rattle.slab_front.specs.Jobs.{mill_named};

    /// These names of a mill.
    pub fn new(orders: &'a str, yard: Option<&'a str>, colours: u16) -> MillNames<'a>
        requires { IsBetween 1 most_colour_limit colours }
        ensures { mill_named result ≡ named_mill orders.entry yard.entry colours }
    {
        MillNames {
            orders,
            yard,
            colours,
        }
    }
}

impl<'a> SearchNames<'a> {
    ghost use Rattle.std.specs.Prelude.{◌≡◌};
    ghost use Rattle.slab_front.specs.Jobs.{search_named};

    /// These names of a search.
    pub fn new(cert: &'a str, nodes: u64, rounds: u32, seed: u32) -> SearchNames<'a>
        requires { IsBetween 1 most_limit nodes }
        ensures { search_named result ≡ record
            { cert = cert.now; nodes = nodes; rounds = rounds; seed = seed } }
    {
        SearchNames {
            cert,
            nodes,
            rounds,
            seed,
        }
    }
}
