//! The tasks of the models that are tried.

/// Triples that overlap.
pub const SPREAD: &str = r#"
    {"kind":"elementary","name":"Trip","in":[{"name":"a","shape":"{}"}],"out":[{"expr":"a{}+$0","name":"t","shape":"{3}"}]},
    {"kind":"repeated","name":"Spread","in":[{"name":"x","shape":"{4}"}],"out":[{"name":"y","shape":"{8}"}],"space":"{4}","task":"Trip","tilers":[{"inner":"a","outer":"x","tiler":"(origin={0},paving={{1}},fitting={})"},{"inner":"t","outer":"y","tiler":"(origin={0},paving={{2}},fitting={{1}})"}],"links":[]}"#;

/// A result with holes.
pub const GAP: &str = r#"
    {"kind":"elementary","name":"Inc","in":[{"name":"a","shape":"{}"}],"out":[{"expr":"a{}+1","name":"s","shape":"{}"}]},
    {"kind":"repeated","name":"Gap","in":[{"name":"x","shape":"{4}"}],"out":[{"name":"y","shape":"{8}"}],"space":"{4}","task":"Inc","tilers":[{"inner":"a","outer":"x","tiler":"(origin={0},paving={{1}},fitting={})"},{"inner":"s","outer":"y","tiler":"(origin={0},paving={{2}},fitting={})"}],"links":[]}"#;

/// Pairs that are read without the holes between them.
pub const PASS_TWO: &str = r#"
    {"kind":"elementary","name":"Pair","in":[{"name":"a","shape":"{}"}],"out":[{"expr":"a{}*10+$0","name":"t","shape":"{2}"}]},
    {"kind":"repeated","name":"Holes","in":[{"name":"x","shape":"{3}"}],"out":[{"name":"y","shape":"{9}"}],"space":"{3}","task":"Pair","tilers":[{"inner":"a","outer":"x","tiler":"(origin={0},paving={{1}},fitting={})"},{"inner":"t","outer":"y","tiler":"(origin={0},paving={{3}},fitting={{1}})"}],"links":[]},
    {"kind":"elementary","name":"Add2","in":[{"name":"p","shape":"{2}"}],"out":[{"expr":"p{0}+p{1}","name":"s","shape":"{}"}]},
    {"kind":"repeated","name":"Skip2","in":[{"name":"z","shape":"{9}"}],"out":[{"name":"q","shape":"{3}"}],"space":"{3}","task":"Add2","tilers":[{"inner":"p","outer":"z","tiler":"(origin={0},paving={{3}},fitting={{1}})"},{"inner":"s","outer":"q","tiler":"(origin={0},paving={{1}},fitting={})"}],"links":[]},
    {"kind":"compound","name":"Pass2","in":[{"name":"x","shape":"{3}"}],"out":[{"name":"q","shape":"{3}"}],"parts":[{"name":"h","task":"Holes"},{"name":"s","task":"Skip2"}],"links":[{"from":"x","to":"h.x"},{"from":"h.y","to":"s.z"},{"from":"s.q","to":"q"}],"reshapes":[]}"#;

/// Pairs that are read with the holes between them.
pub const PASS_THREE: &str = r#"
    {"kind":"elementary","name":"Pair","in":[{"name":"a","shape":"{}"}],"out":[{"expr":"a{}*10+$0","name":"t","shape":"{2}"}]},
    {"kind":"repeated","name":"Holes","in":[{"name":"x","shape":"{3}"}],"out":[{"name":"y","shape":"{9}"}],"space":"{3}","task":"Pair","tilers":[{"inner":"a","outer":"x","tiler":"(origin={0},paving={{1}},fitting={})"},{"inner":"t","outer":"y","tiler":"(origin={0},paving={{3}},fitting={{1}})"}],"links":[]},
    {"kind":"elementary","name":"Add3","in":[{"name":"p","shape":"{3}"}],"out":[{"expr":"p{0}+p{1}","name":"s","shape":"{}"}]},
    {"kind":"repeated","name":"Skip3","in":[{"name":"z","shape":"{9}"}],"out":[{"name":"q","shape":"{3}"}],"space":"{3}","task":"Add3","tilers":[{"inner":"p","outer":"z","tiler":"(origin={0},paving={{3}},fitting={{1}})"},{"inner":"s","outer":"q","tiler":"(origin={0},paving={{1}},fitting={})"}],"links":[]},
    {"kind":"compound","name":"Pass3","in":[{"name":"x","shape":"{3}"}],"out":[{"name":"q","shape":"{3}"}],"parts":[{"name":"h","task":"Holes"},{"name":"s","task":"Skip3"}],"links":[{"from":"x","to":"h.x"},{"from":"h.y","to":"s.z"},{"from":"s.q","to":"q"}],"reshapes":[]}"#;

/// A running sum.
pub const RUNNING: &str = r#"
    {"kind":"elementary","name":"Acc","in":[{"name":"a","shape":"{}"},{"name":"t","shape":"{}"}],"out":[{"expr":"a{}+t{}","name":"s","shape":"{}"}]},
    {"kind":"repeated","name":"Run6","in":[{"name":"x","shape":"{6}"}],"out":[{"name":"y","shape":"{6}"}],"space":"{6}","task":"Acc","tilers":[{"inner":"a","outer":"x","tiler":"(origin={0},paving={{1}},fitting={})"},{"inner":"s","outer":"y","tiler":"(origin={0},paving={{1}},fitting={})"}],"links":[{"default":0,"distance":"{1}","from":"s","modulo":false,"to":"t"}]}"#;

/// A running sum that begins with its own end.
pub const AROUND: &str = r#"
    {"kind":"elementary","name":"Acc","in":[{"name":"a","shape":"{}"},{"name":"t","shape":"{}"}],"out":[{"expr":"a{}+t{}","name":"s","shape":"{}"}]},
    {"kind":"repeated","name":"RunW","in":[{"name":"x","shape":"{6}"}],"out":[{"name":"y","shape":"{6}"}],"space":"{6}","task":"Acc","tilers":[{"inner":"a","outer":"x","tiler":"(origin={0},paving={{1}},fitting={})"},{"inner":"s","outer":"y","tiler":"(origin={0},paving={{1}},fitting={})"}],"links":[{"default":null,"distance":"{1}","from":"s","modulo":true,"to":"t"}]}"#;

/// A sum of itself.
pub const ITSELF: &str = r#"
    {"kind":"elementary","name":"Acc","in":[{"name":"a","shape":"{}"},{"name":"t","shape":"{}"}],"out":[{"expr":"a{}+t{}","name":"s","shape":"{}"}]},
    {"kind":"repeated","name":"RunZ","in":[{"name":"x","shape":"{6}"}],"out":[{"name":"y","shape":"{6}"}],"space":"{6}","task":"Acc","tilers":[{"inner":"a","outer":"x","tiler":"(origin={0},paving={{1}},fitting={})"},{"inner":"s","outer":"y","tiler":"(origin={0},paving={{1}},fitting={})"}],"links":[{"default":0,"distance":"{0}","from":"s","modulo":false,"to":"t"}]}"#;

/// A running sum in each direction.
pub const TWO: &str = r#"
    {"kind":"elementary","name":"Acc","in":[{"name":"a","shape":"{}"},{"name":"t","shape":"{}"}],"out":[{"expr":"a{}+t{}","name":"s","shape":"{}"}]},
    {"kind":"compound","name":"Both","in":[{"name":"a","shape":"{}"},{"name":"l","shape":"{}"},{"name":"r","shape":"{}"}],"out":[{"name":"p","shape":"{}"},{"name":"q","shape":"{}"}],"parts":[{"name":"f","task":"Acc"},{"name":"g","task":"Acc"}],"links":[{"from":"a","to":"f.a"},{"from":"l","to":"f.t"},{"from":"a","to":"g.a"},{"from":"r","to":"g.t"},{"from":"f.s","to":"p"},{"from":"g.s","to":"q"}],"reshapes":[]},
    {"kind":"repeated","name":"Two","in":[{"name":"x","shape":"{3}"}],"out":[{"name":"y","shape":"{3}"},{"name":"z","shape":"{3}"}],"space":"{3}","task":"Both","tilers":[{"inner":"a","outer":"x","tiler":"(origin={0},paving={{1}},fitting={})"},{"inner":"p","outer":"y","tiler":"(origin={0},paving={{1}},fitting={})"},{"inner":"q","outer":"z","tiler":"(origin={0},paving={{1}},fitting={})"}],"links":[{"default":0,"distance":"{1}","from":"p","modulo":false,"to":"l"},{"default":0,"distance":"{-1}","from":"q","modulo":false,"to":"r"}]}"#;

/// Two tasks, each of which feeds the other.
pub const LOOP: &str = r#"
    {"kind":"elementary","name":"Acc","in":[{"name":"a","shape":"{}"},{"name":"t","shape":"{}"}],"out":[{"expr":"a{}+t{}","name":"s","shape":"{}"}]},
    {"kind":"compound","name":"Loop","in":[{"name":"x","shape":"{}"}],"out":[{"name":"y","shape":"{}"}],"parts":[{"name":"f","task":"Acc"},{"name":"g","task":"Acc"}],"links":[{"from":"x","to":"f.a"},{"from":"g.s","to":"f.t"},{"from":"x","to":"g.a"},{"from":"f.s","to":"g.t"},{"from":"f.s","to":"y"}],"reshapes":[]}"#;

/// A filter, and every other one of another filter.
pub const CHAIN: &str = r#"
    {"kind":"elementary","name":"Tap","in":[{"name":"w","shape":"{3}"}],"out":[{"expr":"w{0}+w{1}+w{2}","name":"s","shape":"{}"}]},
    {"kind":"repeated","name":"Filter","in":[{"name":"x","shape":"{8}"}],"out":[{"name":"y","shape":"{8}"}],"space":"{8}","task":"Tap","tilers":[{"inner":"w","outer":"x","tiler":"(origin={-1},paving={{1}},fitting={{1}})"},{"inner":"s","outer":"y","tiler":"(origin={0},paving={{1}},fitting={})"}],"links":[]},
    {"kind":"repeated","name":"Deci","in":[{"name":"x","shape":"{8}"}],"out":[{"name":"z","shape":"{4}"}],"space":"{4}","task":"Tap","tilers":[{"inner":"w","outer":"x","tiler":"(origin={0},paving={{2}},fitting={{1}})"},{"inner":"s","outer":"z","tiler":"(origin={0},paving={{1}},fitting={})"}],"links":[]},
    {"kind":"compound","name":"Chain","in":[{"name":"x","shape":"{8}"}],"out":[{"name":"z","shape":"{4}"}],"parts":[{"name":"f","task":"Filter"},{"name":"g","task":"Deci"}],"links":[{"from":"x","to":"f.x"},{"from":"f.y","to":"g.x"},{"from":"g.z","to":"z"}],"reshapes":[]}"#;

/// A transpose.
pub const FLIP: &str = r#"
    {"kind":"compound","name":"Flip","in":[{"name":"x","shape":"{2,3}"}],"out":[{"name":"y","shape":"{3,2}"}],"parts":[],"links":[],"reshapes":[{"from":"x","pattern":"{3}","source":"(origin={0,0},paving={{1,0}},fitting={{0,1}})","space":"{2}","target":"(origin={0,0},paving={{0,1}},fitting={{1,0}})","to":"y"}]}"#;

/// A part whose second input element is copied twice.
pub const PART_TWICE: &str = r#"
    {"kind":"elementary","name":"Neg","in":[{"name":"a","shape":"{2}"}],"out":[{"name":"s","shape":"{}","expr":"0-a{0}-a{1}"}]},
    {"kind":"compound","name":"Twice","in":[{"name":"x","shape":"{2}"}],"out":[{"name":"y","shape":"{}"}],"parts":[{"name":"p","task":"Neg"}],"links":[{"from":"p.s","to":"y"}],"reshapes":[{"from":"x","to":"p.a","space":"{2}","pattern":"{}","source":"(origin={0},paving={{1}},fitting={})","target":"(origin={0},paving={{1}},fitting={})"},{"from":"x","to":"p.a","space":"{1}","pattern":"{}","source":"(origin={0},paving={{1}},fitting={})","target":"(origin={1},paving={{1}},fitting={})"}]}"#;

/// An output that is copied twice.
pub const OWN_TWICE: &str = r#"
    {"kind":"compound","name":"Own","in":[{"name":"x","shape":"{1}"}],"out":[{"name":"y","shape":"{1}"}],"parts":[],"links":[],"reshapes":[{"from":"x","to":"y","space":"{1}","pattern":"{}","source":"(origin={0},paving={{1}},fitting={})","target":"(origin={0},paving={{1}},fitting={})"},{"from":"x","to":"y","space":"{1}","pattern":"{}","source":"(origin={0},paving={{1}},fitting={})","target":"(origin={0},paving={{1}},fitting={})"}]}"#;

/// A hole that is copied.
pub const HOLE_COPIED: &str = r#"
    {"kind":"elementary","name":"One","in":[{"name":"a","shape":"{}"}],"out":[{"name":"s","shape":"{}","expr":"a{}+1"}]},
    {"kind":"repeated","name":"Half","in":[{"name":"x","shape":"{1}"}],"out":[{"name":"y","shape":"{2}"}],"space":"{1}","task":"One","tilers":[{"outer":"x","inner":"a","tiler":"(origin={0},paving={{1}},fitting={})"},{"outer":"y","inner":"s","tiler":"(origin={0},paving={{1}},fitting={})"}],"links":[]},
    {"kind":"compound","name":"Hole","in":[{"name":"x","shape":"{1}"}],"out":[{"name":"z","shape":"{2}"}],"parts":[{"name":"h","task":"Half"}],"links":[{"from":"x","to":"h.x"}],"reshapes":[{"from":"h.y","to":"z","space":"{2}","pattern":"{}","source":"(origin={0},paving={{1}},fitting={})","target":"(origin={0},paving={{1}},fitting={})"}]}"#;

/// A copy that is fed by what it writes.
pub const COPY_LOOP: &str = r#"
    {"kind":"compound","name":"Copy","in":[{"name":"a","shape":"{1}"}],"out":[{"name":"b","shape":"{1}"}],"parts":[],"links":[],"reshapes":[{"from":"a","to":"b","space":"{1}","pattern":"{}","source":"(origin={0},paving={{1}},fitting={})","target":"(origin={0},paving={{1}},fitting={})"}]},
    {"kind":"compound","name":"Copies","in":[],"out":[{"name":"y","shape":"{1}"}],"parts":[{"name":"p","task":"Copy"}],"links":[{"from":"p.b","to":"p.a"},{"from":"p.b","to":"y"}],"reshapes":[]}"#;

/// A task that reads from a loop of two others, and is the first of the three.
pub const AFTER_A_LOOP: &str = r#"
    {"kind":"elementary","name":"Acc","in":[{"name":"a","shape":"{}"},{"name":"t","shape":"{}"}],"out":[{"expr":"a{}+t{}","name":"s","shape":"{}"}]},
    {"kind":"compound","name":"After","in":[{"name":"x","shape":"{}"}],"out":[{"name":"y","shape":"{}"}],"parts":[{"name":"d","task":"Acc"},{"name":"f","task":"Acc"},{"name":"g","task":"Acc"}],"links":[{"from":"x","to":"d.a"},{"from":"f.s","to":"d.t"},{"from":"x","to":"f.a"},{"from":"g.s","to":"f.t"},{"from":"x","to":"g.a"},{"from":"f.s","to":"g.t"},{"from":"d.s","to":"y"}],"reshapes":[]}"#;

/// A task that a loop of two others reads, and is the first of the three.
pub const BEFORE_A_LOOP: &str = r#"
    {"kind":"elementary","name":"Acc","in":[{"name":"a","shape":"{}"},{"name":"t","shape":"{}"}],"out":[{"expr":"a{}+t{}","name":"s","shape":"{}"}]},
    {"kind":"elementary","name":"Inc","in":[{"name":"a","shape":"{}"}],"out":[{"expr":"a{}+1","name":"s","shape":"{}"}]},
    {"kind":"compound","name":"Before","in":[{"name":"x","shape":"{}"}],"out":[{"name":"y","shape":"{}"}],"parts":[{"name":"d","task":"Inc"},{"name":"f","task":"Acc"},{"name":"g","task":"Acc"}],"links":[{"from":"x","to":"d.a"},{"from":"d.s","to":"f.a"},{"from":"g.s","to":"f.t"},{"from":"x","to":"g.a"},{"from":"f.s","to":"g.t"},{"from":"f.s","to":"y"}],"reshapes":[]}"#;
