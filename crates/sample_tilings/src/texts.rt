// The texts of the samples, each as its crate prints it.

/// The tessellation file of pentagons, four round each corner.
pub const PENTAGONS_TESS: &str = "\
    tess 1\n\
    kind 0 5 1\n\
    join 0 0 0 0\n\
    corner 0 0 4\n";

/// The rules file of pentagons, four round each corner.
pub const PENTAGONS_RULES: &str = "\
    {\"corners\":[{\"h\":[0,-1,-2,-1],\"outer\":[0,1]}],\"roots\":[0],\
    \"states\":[{\"claims\":[[0,2],[0,2],[0,2],[0,2],[0,2]],\"kind\":0,\"off\":0,\
    \"rules\":[1,1,1,1,1]},{\"claims\":[[0,3],[0,2],[0,2],[0,2],[0,1]],\"kind\":0,\"off\":0,\
    \"rules\":[\"P\",\"R\",1,1,2]},{\"claims\":[[0,3],[0,2],[0,2],[0,1],[0,0]],\"kind\":0,\
    \"off\":0,\"rules\":[\"P\",\"R\",1,2,\"L\"]}],\"version\":2}\n";

/// The rules file of pentagons in version 1 of the format, with a scale and ranks.
pub const PENTAGONS_RANKED_RULES: &str = "\
    {\"corners\":[{\"h\":[0,-1,-2,-1],\"outer\":[0,1],\"rank\":0}],\"roots\":[0],\
    \"scale\":1,\"states\":[{\"claims\":[[0,2],[0,2],[0,2],[0,2],[0,2]],\"kind\":0,\
    \"off\":0,\"rules\":[1,1,1,1,1]},{\"claims\":[[0,3],[0,2],[0,2],[0,2],[0,1]],\"kind\":0,\
    \"off\":0,\"rules\":[\"P\",\"R\",1,1,2]},{\"claims\":[[0,3],[0,2],[0,2],[0,1],[0,0]],\
    \"kind\":0,\"off\":0,\"rules\":[\"P\",\"R\",1,2,\"L\"]}],\"version\":1}\n";

/// The tessellation file of heptagons, three round each corner.
pub const HEPTAGONS_TESS: &str = "\
    tess 1\n\
    kind 0 7 1\n\
    join 0 0 0 0\n\
    corner 0 0 3\n";

/// The rules file of heptagons, three round each corner.
pub const HEPTAGONS_RULES: &str = "\
    {\"corners\":[{\"h\":[0,-1,0],\"outer\":[1,1]},{\"h\":[0,-1,-1],\"outer\":[0,0]}],\
    \"roots\":[0],\"states\":[{\"claims\":[[0,1],[0,1],[0,1],[0,1],[0,1],[0,1],[0,1]],\
    \"kind\":0,\"off\":0,\"rules\":[1,1,1,1,1,1,1]},{\"claims\":[[0,2],[1,2],[0,1],[0,1],[0,\
    1],[1,1],[0,0]],\"kind\":0,\"off\":0,\"rules\":[\"P\",\"R\",\"R\",1,1,2,\"L\"]},\
    {\"claims\":[[0,2],[1,2],[0,1],[0,1],[1,1],[0,0],[1,0]],\"kind\":0,\"off\":0,\
    \"rules\":[\"P\",\"R\",\"R\",1,2,\"L\",\"L\"]}],\"version\":2}\n";

/// The tessellation file of heptagons and hexagons, three tiles round each corner, each heptagon
/// between hexagons.
pub const HEPTAGONS_AND_HEXAGONS_TESS: &str = "\
    tess 1\n\
    kind 0 7 1\n\
    kind 1 6 2\n\
    join 0 0 1 0\n\
    join 1 1 1 1\n\
    corner 0 0 3\n\
    corner 1 0 3\n\
    corner 1 1 3\n";

/// The rules file of heptagons and hexagons, three tiles round each corner, each heptagon between
/// hexagons.
pub const HEPTAGONS_AND_HEXAGONS_RULES: &str = "\
    {\"corners\":[{\"h\":[0,-1,0],\"outer\":[1,1]},{\"h\":[0,-1,-1],\"outer\":[0,0]}],\
    \"roots\":[0,1],\"states\":[{\"claims\":[[0,1],[0,1],[0,1],[0,1],[0,1],[0,1],[0,1]],\
    \"kind\":0,\"off\":0,\"rules\":[2,2,2,2,2,2,2]},{\"claims\":[[0,1],[0,1],[0,1],[0,1],[0,\
    1],[0,1]],\"kind\":1,\"off\":0,\"rules\":[6,3,6,3,6,3]},{\"claims\":[[0,2],[1,2],[0,1],\
    [0,1],[1,1],[0,0]],\"kind\":1,\"off\":0,\"rules\":[\"P\",\"R\",\"R\",3,7,\"L\"]},\
    {\"claims\":[[0,2],[1,2],[0,1],[0,1],[1,1],[0,0]],\"kind\":1,\"off\":1,\"rules\":[\"P\",\
    \"R\",\"R\",6,5,\"L\"]},{\"claims\":[[0,2],[1,2],[0,1],[1,1],[0,0],[1,0]],\"kind\":1,\
    \"off\":0,\"rules\":[\"P\",\"R\",\"R\",5,\"L\",\"L\"]},{\"claims\":[[0,2],[1,2],[0,1],\
    [1,1],[0,0],[1,0]],\"kind\":1,\"off\":1,\"rules\":[\"P\",\"R\",\"R\",7,\"L\",\"L\"]},\
    {\"claims\":[[0,2],[1,2],[0,1],[0,1],[0,1],[1,1],[0,0]],\"kind\":0,\"off\":0,\
    \"rules\":[\"P\",\"R\",\"R\",2,2,4,\"L\"]},{\"claims\":[[0,2],[1,2],[0,1],[0,1],[1,1],\
    [0,0],[1,0]],\"kind\":0,\"off\":0,\"rules\":[\"P\",\"R\",\"R\",2,4,\"L\",\"L\"]}],\
    \"version\":2}\n";
