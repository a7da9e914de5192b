//! Documents of the tests.

/// A document of one task, which adds two arrays.
pub const ADD: &str =
    r#"{"allocate":[],"input":{"a":[1,2,3,4],"b":[10,20,30,40]},"model":{"main":"Add","tasks":[{"in":[{"name":"a","shape":"{2,2}"},{"name":"b","shape":"{2,2}"}],"kind":"elementary","name":"Add","out":[{"expr":"a{$0,$1}+b{$0,$1}","name":"y","shape":"{2,2}"}]}]},"transform":[],"version":2}"#;

/// The same with a step.
pub const STEPPED: &str =
    r#"{"allocate":[],"input":{"a":[1,2,3,4],"b":[10,20,30,40]},"model":{"main":"Add","tasks":[{"in":[{"name":"a","shape":"{2,2}"},{"name":"b","shape":"{2,2}"}],"kind":"elementary","name":"Add","out":[{"expr":"a{$0,$1}+b{$0,$1}","name":"y","shape":"{2,2}"}]}]},"transform":[{"block":"{2}","kind":"skew","outer":"{2}","task":"Add"}],"version":2}"#;

/// A document of one task, which squares a number of 16 bits.
pub const SQUARE: &str =
    r#"{"allocate":[],"input":{"a":[181]},"model":{"main":"Sq16","tasks":[{"in":[{"name":"a","shape":"{}","type":"int16"}],"kind":"elementary","name":"Sq16","out":[{"expr":"a{}*a{}","name":"s","shape":"{}","type":"int16"}]}]},"transform":[],"version":2}"#;

/// A document of one task, which needs no inputs and much work.
pub const ONES: &str =
    r#"{"allocate":[],"input":{},"model":{"main":"Ones","tasks":[{"in":[],"kind":"elementary","name":"Ones","out":[{"expr":"sum(k,1048576,1)","name":"y","shape":"{4095}"}]}]},"transform":[],"version":2}"#;

/// A document of a filter over windows of three numbers.
pub const FILTER: &str =
    r#"{"allocate":[],"input":{"x":[1,2,3,4,5,6,7,8]},"model":{"main":"Filter","tasks":[{"in":[{"name":"w","shape":"{3}"}],"kind":"elementary","name":"Tap","out":[{"expr":"w{0}+w{1}+w{2}","name":"s","shape":"{}"}]},{"in":[{"name":"x","shape":"{8}"}],"kind":"repeated","links":[],"name":"Filter","out":[{"name":"y","shape":"{8}"}],"space":"{8}","task":"Tap","tilers":[{"inner":"w","outer":"x","tiler":"(origin={-1},paving={{1}},fitting={{1}})"},{"inner":"s","outer":"y","tiler":"(origin={0},paving={{1}},fitting={})"}]}]},"transform":[],"version":2}"#;

/// A document of a matrix product.
pub const MATRIX: &str =
    r#"{"allocate":[],"input":{"a":[1,2,3,4,5,6],"b":[7,8,9,10,11,12]},"model":{"main":"Mat","tasks":[{"in":[{"name":"u","shape":"{3}"},{"name":"v","shape":"{3}"}],"kind":"elementary","name":"Dot","out":[{"expr":"sum(k,3,u{k}*v{k})","name":"s","shape":"{}"}]},{"in":[{"name":"a","shape":"{2,3}"},{"name":"b","shape":"{3,2}"}],"kind":"repeated","links":[],"name":"Mat","out":[{"name":"c","shape":"{2,2}"}],"space":"{2,2}","task":"Dot","tilers":[{"inner":"u","outer":"a","tiler":"(origin={0,0},paving={{1,0},{0,0}},fitting={{0,1}})"},{"inner":"v","outer":"b","tiler":"(origin={0,0},paving={{0,0},{0,1}},fitting={{1,0}})"},{"inner":"s","outer":"c","tiler":"(origin={0,0},paving={{1,0},{0,1}},fitting={})"}]}]},"transform":[]}"#;

/// A document whose main output needs the second of two elements, and that one is a fault.
pub const NEED: &str =
    r#"{"allocate":[],"input":{"x":[9223372036854775807]},"model":{"main":"Need","tasks":[{"in":[{"name":"a","shape":"{}"}],"kind":"elementary","name":"Big","out":[{"expr":"a{}+$0","name":"y","shape":"{2}"}]},{"in":[{"name":"x","shape":"{1}"}],"kind":"repeated","links":[],"name":"Lone","out":[{"name":"y","shape":"{2}"}],"space":"{1}","task":"Big","tilers":[{"inner":"a","outer":"x","tiler":"(origin={0},paving={{1}},fitting={})"},{"inner":"y","outer":"y","tiler":"(origin={0},paving={{2}},fitting={{1}})"}]},{"in":[{"name":"p","shape":"{}"}],"kind":"elementary","name":"Id","out":[{"expr":"p{}","name":"s","shape":"{}"}]},{"in":[{"name":"z","shape":"{2}"}],"kind":"repeated","links":[],"name":"Pick","out":[{"name":"q","shape":"{1}"}],"space":"{1}","task":"Id","tilers":[{"inner":"p","outer":"z","tiler":"(origin={1},paving={{1}},fitting={})"},{"inner":"s","outer":"q","tiler":"(origin={0},paving={{1}},fitting={})"}]},{"in":[{"name":"x","shape":"{1}"}],"kind":"compound","links":[{"from":"x","to":"f.x"},{"from":"f.y","to":"g.z"},{"from":"g.q","to":"q"}],"name":"Need","out":[{"name":"q","shape":"{1}"}],"parts":[{"name":"f","task":"Lone"},{"name":"g","task":"Pick"}],"reshapes":[]}]},"transform":[]}"#;

/// A document in which two repetitions write one point.
pub const SPREAD: &str =
    r#"{"allocate":[],"input":{},"model":{"main":"Spread","tasks":[{"in":[{"name":"a","shape":"{}"}],"kind":"elementary","name":"Trip","out":[{"expr":"a{}+$0","name":"t","shape":"{3}"}]},{"in":[{"name":"x","shape":"{4}"}],"kind":"repeated","links":[],"name":"Spread","out":[{"name":"y","shape":"{8}"}],"space":"{4}","task":"Trip","tilers":[{"inner":"a","outer":"x","tiler":"(origin={0},paving={{1}},fitting={})"},{"inner":"t","outer":"y","tiler":"(origin={0},paving={{2}},fitting={{1}})"}]}]},"transform":[]}"#;

/// A document in which a task reads every third point of nine, and two of each three are written.
pub const PASS: &str =
    r#"{"allocate":[],"input":{"x":[1,2,3]},"model":{"main":"Pass3","tasks":[{"in":[{"name":"a","shape":"{}"}],"kind":"elementary","name":"Pair","out":[{"expr":"a{}*10+$0","name":"t","shape":"{2}"}]},{"in":[{"name":"x","shape":"{3}"}],"kind":"repeated","links":[],"name":"Holes","out":[{"name":"y","shape":"{9}"}],"space":"{3}","task":"Pair","tilers":[{"inner":"a","outer":"x","tiler":"(origin={0},paving={{1}},fitting={})"},{"inner":"t","outer":"y","tiler":"(origin={0},paving={{3}},fitting={{1}})"}]},{"in":[{"name":"p","shape":"{3}"}],"kind":"elementary","name":"Add3","out":[{"expr":"p{0}+p{1}","name":"s","shape":"{}"}]},{"in":[{"name":"z","shape":"{9}"}],"kind":"repeated","links":[],"name":"Skip3","out":[{"name":"q","shape":"{3}"}],"space":"{3}","task":"Add3","tilers":[{"inner":"p","outer":"z","tiler":"(origin={0},paving={{3}},fitting={{1}})"},{"inner":"s","outer":"q","tiler":"(origin={0},paving={{1}},fitting={})"}]},{"in":[{"name":"x","shape":"{3}"}],"kind":"compound","links":[{"from":"x","to":"h.x"},{"from":"h.y","to":"s.z"},{"from":"s.q","to":"q"}],"name":"Pass3","out":[{"name":"q","shape":"{3}"}],"parts":[{"name":"h","task":"Holes"},{"name":"s","task":"Skip3"}],"reshapes":[]}]},"transform":[]}"#;

/// A document of two filters, one after the other.
pub const CHAIN: &str =
    r#"{"allocate":[],"input":{"x":[1,2,3,4,5,6,7,8]},"model":{"main":"Chain","tasks":[{"in":[{"name":"w","shape":"{3}"}],"kind":"elementary","name":"Tap","out":[{"expr":"w{0}+w{1}+w{2}","name":"s","shape":"{}"}]},{"in":[{"name":"x","shape":"{8}"}],"kind":"repeated","links":[],"name":"Filter","out":[{"name":"y","shape":"{8}"}],"space":"{8}","task":"Tap","tilers":[{"inner":"w","outer":"x","tiler":"(origin={-1},paving={{1}},fitting={{1}})"},{"inner":"s","outer":"y","tiler":"(origin={0},paving={{1}},fitting={})"}]},{"in":[{"name":"x","shape":"{8}"}],"kind":"repeated","links":[],"name":"Deci","out":[{"name":"z","shape":"{4}"}],"space":"{4}","task":"Tap","tilers":[{"inner":"w","outer":"x","tiler":"(origin={0},paving={{2}},fitting={{1}})"},{"inner":"s","outer":"z","tiler":"(origin={0},paving={{1}},fitting={})"}]},{"in":[{"name":"x","shape":"{8}"}],"kind":"compound","links":[{"from":"x","to":"f.x"},{"from":"f.y","to":"g.x"},{"from":"g.z","to":"z"}],"name":"Chain","out":[{"name":"z","shape":"{4}"}],"parts":[{"name":"f","task":"Filter"},{"name":"g","task":"Deci"}],"reshapes":[]}]},"transform":[]}"#;

/// A document of a repetition over one point.
pub const ONE: &str =
    r#"{"allocate":[],"input":{"x":[41]},"model":{"main":"One","tasks":[{"in":[{"name":"a","shape":"{}"}],"kind":"elementary","name":"Inc","out":[{"expr":"a{}+1","name":"s","shape":"{}"}]},{"in":[{"name":"x","shape":"{}"}],"kind":"repeated","links":[],"name":"One","out":[{"name":"y","shape":"{}"}],"space":"{}","task":"Inc","tilers":[{"inner":"a","outer":"x","tiler":"(origin={},paving={},fitting={})"},{"inner":"s","outer":"y","tiler":"(origin={},paving={},fitting={})"}]}]},"transform":[]}"#;

/// A document in which each repetition needs the one before.
pub const SUMS: &str =
    r#"{"allocate":[],"input":{"x":[3,1,4,1,5,9]},"model":{"main":"Run6","tasks":[{"in":[{"name":"a","shape":"{}"},{"name":"t","shape":"{}"}],"kind":"elementary","name":"Acc","out":[{"expr":"a{}+t{}","name":"s","shape":"{}"}]},{"in":[{"name":"x","shape":"{6}"}],"kind":"repeated","links":[{"default":0,"distance":"{1}","from":"s","modulo":false,"to":"t"}],"name":"Run6","out":[{"name":"y","shape":"{6}"}],"space":"{6}","task":"Acc","tilers":[{"inner":"a","outer":"x","tiler":"(origin={0},paving={{1}},fitting={})"},{"inner":"s","outer":"y","tiler":"(origin={0},paving={{1}},fitting={})"}]}]},"transform":[]}"#;

/// The same with a link that wraps.
pub const ROUND: &str =
    r#"{"allocate":[],"input":{},"model":{"main":"RunW","tasks":[{"in":[{"name":"a","shape":"{}"},{"name":"t","shape":"{}"}],"kind":"elementary","name":"Acc","out":[{"expr":"a{}+t{}","name":"s","shape":"{}"}]},{"in":[{"name":"x","shape":"{6}"}],"kind":"repeated","links":[{"default":null,"distance":"{1}","from":"s","modulo":true,"to":"t"}],"name":"RunW","out":[{"name":"y","shape":"{6}"}],"space":"{6}","task":"Acc","tilers":[{"inner":"a","outer":"x","tiler":"(origin={0},paving={{1}},fitting={})"},{"inner":"s","outer":"y","tiler":"(origin={0},paving={{1}},fitting={})"}]}]},"transform":[]}"#;

/// A document with links in both directions.
pub const TWO: &str =
    r#"{"allocate":[],"input":{"x":[1,2,3]},"model":{"main":"Two","tasks":[{"in":[{"name":"a","shape":"{}"},{"name":"t","shape":"{}"}],"kind":"elementary","name":"Acc","out":[{"expr":"a{}+t{}","name":"s","shape":"{}"}]},{"in":[{"name":"a","shape":"{}"},{"name":"l","shape":"{}"},{"name":"r","shape":"{}"}],"kind":"compound","links":[{"from":"a","to":"f.a"},{"from":"l","to":"f.t"},{"from":"a","to":"g.a"},{"from":"r","to":"g.t"},{"from":"f.s","to":"p"},{"from":"g.s","to":"q"}],"name":"Both","out":[{"name":"p","shape":"{}"},{"name":"q","shape":"{}"}],"parts":[{"name":"f","task":"Acc"},{"name":"g","task":"Acc"}],"reshapes":[]},{"in":[{"name":"x","shape":"{3}"}],"kind":"repeated","links":[{"default":0,"distance":"{1}","from":"p","modulo":false,"to":"l"},{"default":0,"distance":"{-1}","from":"q","modulo":false,"to":"r"}],"name":"Two","out":[{"name":"y","shape":"{3}"},{"name":"z","shape":"{3}"}],"space":"{3}","task":"Both","tilers":[{"inner":"a","outer":"x","tiler":"(origin={0},paving={{1}},fitting={})"},{"inner":"p","outer":"y","tiler":"(origin={0},paving={{1}},fitting={})"},{"inner":"q","outer":"z","tiler":"(origin={0},paving={{1}},fitting={})"}]}]},"transform":[]}"#;

/// A document with an entry that exchanges both indices.
pub const GRID: &str =
    r#"{"allocate":[{"from":"(origin={0,0},paving={{1,0},{0,1}},fitting={})","leaf":"/*","pattern":"{}","processors":"{2,2}","space":"{2,2}","to":"(origin={0,0},paving={{0,1},{1,0}},fitting={})"}],"input":{"x":[1,2,3,4]},"model":{"main":"Grid","tasks":[{"in":[{"name":"a","shape":"{}"}],"kind":"elementary","name":"Neg","out":[{"expr":"0-a{}","name":"s","shape":"{}"}]},{"in":[{"name":"x","shape":"{2,2}"}],"kind":"repeated","links":[],"name":"Grid","out":[{"name":"y","shape":"{2,2}"}],"space":"{2,2}","task":"Neg","tilers":[{"inner":"a","outer":"x","tiler":"(origin={0,0},paving={{1,0},{0,1}},fitting={})"},{"inner":"s","outer":"y","tiler":"(origin={0,0},paving={{1,0},{0,1}},fitting={})"}]}]},"transform":[],"version":2}"#;

/// A document of one reshape.
pub const FLIP: &str =
    r#"{"allocate":[],"input":{"x":[1,2,3,4,5,6]},"model":{"main":"Flip","tasks":[{"in":[{"name":"x","shape":"{2,3}"}],"kind":"compound","links":[],"name":"Flip","out":[{"name":"y","shape":"{3,2}"}],"parts":[],"reshapes":[{"from":"x","pattern":"{3}","source":"(origin={0,0},paving={{1,0}},fitting={{0,1}})","space":"{2}","target":"(origin={0,0},paving={{0,1}},fitting={{1,0}})","to":"y"}]}]},"transform":[],"version":2}"#;

/// A document of one repetition with more elements than the limit.
pub const WIDE: &str =
    r#"{"allocate":[],"input":{},"model":{"main":"Ten","tasks":[{"in":[{"name":"a","shape":"{}"},{"name":"b","shape":"{}"}],"kind":"elementary","name":"Neg","out":[{"expr":"0-a{}","name":"s","shape":"{}"}]},{"in":[{"name":"x","shape":"{4194304}"}],"kind":"repeated","links":[],"name":"Ten","out":[{"name":"y","shape":"{4194304}"}],"space":"{4194304}","task":"Neg","tilers":[{"inner":"a","outer":"x","tiler":"(origin={0},paving={{1}},fitting={})"},{"inner":"b","outer":"x","tiler":"(origin={0},paving={{1}},fitting={})"},{"inner":"s","outer":"y","tiler":"(origin={0},paving={{1}},fitting={})"}]}]},"transform":[]}"#;

/// A program that adds two numbers, and the numbers.
pub const PROGRAM: &str =
    r#"{"memory":[1,2],"order":"up","program":"/* AOL-C/1 */\ntypedef long long i64;\ni64 V[3];\ni64 F[3];\nvoid step_0_0(void) {\nV[2LL] = (V[0LL] + V[1LL]);\n}\nvoid step_0_1(void) {\n}\nvoid run(void) {\nstep_0_0();\nstep_0_1();\n}\n"}"#;

/// A document of one repetition with a step that makes blocks of two.
pub const TILED: &str =
    r#"{"allocate":[],"input":{"x":[1,2,3,4,5,6,7,8,9,10]},"model":{"main":"Ten","tasks":[{"in":[{"name":"a","shape":"{}"}],"kind":"elementary","name":"Neg","out":[{"expr":"0-a{}","name":"s","shape":"{}"}]},{"in":[{"name":"x","shape":"{10}"}],"kind":"repeated","links":[],"name":"Ten","out":[{"name":"y","shape":"{10}"}],"space":"{10}","task":"Neg","tilers":[{"inner":"a","outer":"x","tiler":"(origin={0},paving={{1}},fitting={})"},{"inner":"s","outer":"y","tiler":"(origin={0},paving={{1}},fitting={})"}]}]},"transform":[{"block":"{2}","kind":"tile","outer":"{5}","task":"Ten"}],"version":2}"#;

/// The document that its steps make.
pub const BLOCKS: &str =
    r#"{"allocate":[],"input":{"x":[1,2,3,4,5,6,7,8,9,10]},"model":{"main":"Ten","tasks":[{"in":[{"name":"a","shape":"{}"}],"kind":"elementary","name":"Neg","out":[{"expr":"0-a{}","name":"s","shape":"{}"}]},{"in":[{"name":"a","shape":"{2}"}],"kind":"repeated","links":[],"name":"Ten_1","out":[{"name":"s","shape":"{2}"}],"space":"{2}","task":"Neg","tilers":[{"inner":"a","outer":"a","tiler":"(origin={0},paving={{1}},fitting={})"},{"inner":"s","outer":"s","tiler":"(origin={0},paving={{1}},fitting={})"}]},{"in":[{"name":"x","shape":"{10}"}],"kind":"repeated","links":[],"name":"Ten","out":[{"name":"y","shape":"{10}"}],"space":"{5}","task":"Ten_1","tilers":[{"inner":"a","outer":"x","tiler":"(origin={0},paving={{2}},fitting={{1}})"},{"inner":"s","outer":"y","tiler":"(origin={0},paving={{2}},fitting={{1}})"}]}]},"transform":[],"version":2}"#;

/// A document of two levels with a step that changes their paving, and loses a read.
pub const WRAPPED: &str =
    r#"{"allocate":[],"input":{"x":[1,2,3,4,5,6,7,8]},"model":{"main":"Wrap","tasks":[{"in":[{"name":"w","shape":"{2}"}],"kind":"elementary","name":"Win","out":[{"expr":"w{0}-w{1}","name":"s","shape":"{}"}]},{"in":[{"name":"m","shape":"{4}"}],"kind":"repeated","links":[],"name":"Mid","out":[{"name":"n","shape":"{4}"}],"space":"{4}","task":"Win","tilers":[{"inner":"w","outer":"m","tiler":"(origin={0},paving={{1}},fitting={{1}})"},{"inner":"s","outer":"n","tiler":"(origin={0},paving={{1}},fitting={})"}]},{"in":[{"name":"x","shape":"{8}"}],"kind":"repeated","links":[],"name":"Wrap","out":[{"name":"y","shape":"{8}"}],"space":"{2}","task":"Mid","tilers":[{"inner":"m","outer":"x","tiler":"(origin={0},paving={{4}},fitting={{1}})"},{"inner":"n","outer":"y","tiler":"(origin={0},paving={{4}},fitting={{1}})"}]}]},"transform":[{"block":"{2}","kind":"pave","outer":"{1}","task":"Wrap"}],"version":2}"#;
